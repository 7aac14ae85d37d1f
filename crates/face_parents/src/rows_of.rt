// The parents that a face section stores, as a row of numbers: the first parents of its faces, then the second ones.
ghost use Rattle.std.specs.Prelude.{◌≡◌, ◌<◌, ℕ, Some, get_or};
ghost use Rattle.std.specs.Option.{unwrap_or};
ghost use Rattle.model.specs.Image.{tree_of, node_count, dimensions};
ghost use Rattle.model.specs.Given.{Sound, Accepted};
ghost use Rattle.model.specs.ParentElements.{has_parents};
ghost use Rattle.index.specs.Index.{Index};
ghost use Rattle.face_parents.specs.Parents.{Columns, ParentRow};

use element_types::NGON;
use face_places::zone_sections::has_type;
use rows::Row;

// The numbers of a node that stores two columns; an empty row where there is no such node.
pub fn parents_row(image: &[u8], node: Option<usize>) -> Row
    requires sound { Sound image.now }
    requires columns { (a : ℕ) → node ≡ Some a → Columns image.now a (get_or (dimensions (tree_of image.now) a) 0 0) }
    ensures { let a = unwrap_or node (node_count image.now) in ParentRow image.now a (get_or (dimensions (tree_of image.now) a) 0 0) result }
{
    let Some(a) = node else {
        return Row {
            at: 0,
            width: 4,
            n: 0,
        };
    };
    let at = records::data_start(image, a);
    let width = records::width_at(image, a);
    let n = records::dimension(image, a, 0) as usize;
    Row {
        at,
        width,
        n: 2 * n,
    }
}

// Is node s a face section of zone z with the parents of its faces?
pub fn has_parents(image: &[u8], index: &[u16], z: usize, s: usize) -> bool
    requires { Accepted image.now × (Index image.now index.now × (s < node_count image.now)) }
    ensures { result ≡ has_parents (tree_of image.now) z s }
{
    if !has_type(image, index, z, s, NGON) {
        return false;
    }
    sids::parents_of(image, index, s, NGON).is_some()
}
