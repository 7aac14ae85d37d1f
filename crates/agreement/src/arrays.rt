// The arrays of parents of a zone's face sections: beside each entry of the tables the ParentElements of its section, the node count where it has none.
ghost use Rattle.std.specs.Prelude.{◌≡◌, ◌+◌, ◌≤◌, ◌<◌, length, get_or};
ghost use Rattle.model.specs.Image.{tree_of, node_count};
ghost use Rattle.model.specs.Given.{Sound, Accepted};
ghost use Rattle.index.specs.Index.{Index};
ghost use Rattle.agreement.specs.Arrays.{Arrays, InTables, StoresColumns, ArrayRow};

use element_types::NGON;
use face_parents::parents_row;
use face_places::zone_sections::{has_type, span_of};
use rows::Row;

// Puts the ParentElements of node s beside the entry of its faces, where it is a face section of zone z.
fn put_array(
    image: &[u8],
    index: &[u16],
    z: usize,
    s: usize,
    firsts: &[u64],
    reach: &[u64],
    n: usize,
    arrays: &mut [u16],
)
    requires accepted { Accepted image.now × (Index image.now index.now × (s < node_count image.now)) }
    requires in_tables { InTables image.now z firsts.now reach.now n }
    requires arrays { Arrays (tree_of image.now) z s n firsts.now arrays.old }
    ensures { Arrays (tree_of image.now) z (s + 1) n firsts.now arrays.new }
{
    if !has_type(image, index, z, s, NGON) {
        return;
    }
    let span = span_of(image, index, s);
    let j = ranges::find(firsts, reach, n, n, span.first).unwrap();
    let none = labels::node_count(image);
    arrays[j] = sids::parents_of(image, index, s, NGON).unwrap_or(none) as u16;
}

// Gathers the arrays of the zone's face sections.
pub fn gather_arrays(
    image: &[u8],
    index: &[u16],
    z: usize,
    firsts: &[u64],
    reach: &[u64],
    n: usize,
    arrays: &mut [u16],
)
    requires accepted { (Accepted image.now × Index image.now index.now) × (n ≤ length arrays.old) }
    requires in_tables { InTables image.now z firsts.now reach.now n }
    ensures { Arrays (tree_of image.now) z (node_count image.now) n firsts.now arrays.new }
{
    for i in 0..labels::node_count(image) {
        put_array(image, index, z, i, firsts, reach, n, arrays);
    }
}

// The parents beside entry j; `row` has them already where j is the last entry that was asked for.
pub fn array_at(image: &[u8], arrays: &[u16], j: usize, last: usize, row: Row) -> Row
    requires sound { (Sound image.now × (j < length arrays.now)) × (get_or arrays.now j 0 ≤ node_count image.now) }
    requires stores_columns { StoresColumns image.now (get_or arrays.now j 0) × (j ≡ last → ArrayRow image.now (get_or arrays.now j 0) row) }
    ensures { ArrayRow image.now (get_or arrays.now j 0) result }
{
    if j == last {
        return row;
    }
    let a = arrays[j] as usize;
    parents_row(image, (a < labels::node_count(image)).then_some(a))
}
