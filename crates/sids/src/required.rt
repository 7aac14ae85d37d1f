// Rules 20 and 23: a node in its place, with the children that it needs.
ghost use Rattle.std.specs.Prelude.{◌≡◌, true, ◌&&◌, ◌<◌, eqb};
ghost use Rattle.model.specs.Lists.{◌⊃◌, some_from};
ghost use Rattle.model.specs.Image.{tree_of, node_count};
ghost use Rattle.model.specs.Given.{Sound};
ghost use Rattle.model.specs.Containment.{role, may_hold, found, validated, Elements};
ghost use Rattle.model.specs.Values.{unstructured, base_child, complete, range_of, connectivity_of};
ghost use Rattle.labels.specs.Roles.{role_number};
ghost use Rattle.index.specs.Index.{kind, Index};
ghost use Rattle.sids.specs.Groups.{is_required};

use super::children::{connectivity_of, range_of};
use labels::Role;

// Rule 20 below node up: the placing table has the label under this parent; Elements_t in an unstructured zone only.
pub fn placed(image: &[u8], index: &[u16], up: usize, above: Role, below: Role) -> bool
    requires index { Index image.now index.now × (up < node_count image.now) }
    requires up_value { (validated (tree_of image.now) up ≡ true) × (role_number above ≡ role (tree_of image.now) up) }
    ensures { result ≡ (may_hold (role_number above) (role_number below) && (eqb (role_number below) Elements ⊃ unstructured (tree_of image.now) up)) }
{
    if !labels::may_hold(Some(above), Some(below)) {
        return false;
    }
    if below != Role::Elements {
        return true;
    }
    types::unstructured(image, index, up)
}

// Node j is a CGNSBase_t child of the root.
fn base_child(image: &[u8], j: usize) -> bool
    requires { Sound image.now × (j < node_count image.now) }
    ensures { result ≡ base_child (tree_of image.now) j }
{
    records::parent_of(image, j) == 0 && labels::role_of(image, j) == Some(Role::Base)
}

// The root has one.
fn has_base(image: &[u8]) -> bool
    requires { Sound image.now }
    ensures { result ≡ some_from (base_child (tree_of image.now)) (node_count image.now) 0 }
{
    let n = labels::node_count(image);
    for j in 0..n {
        if base_child(image, j) {
            return true;
        }
    }
    false
}

// A section has its range and its connectivity.
fn section_complete(image: &[u8], index: &[u16], s: usize) -> bool
    requires index { Index image.now index.now × (s < node_count image.now) }
    requires s_value { kind (tree_of image.now) s ≡ Elements }
    ensures { result ≡ (found (tree_of image.now) (range_of (tree_of image.now) s)
        && found (tree_of image.now) (connectivity_of (tree_of image.now) s)) }
{
    range_of(image, index, s).is_some() && connectivity_of(image, index, s).is_some()
}

// Rule 23: the required children are there.
pub fn complete(image: &[u8], index: &[u16], i: usize) -> bool
    requires index { Index image.now index.now × (i < node_count image.now) }
    requires i_value { validated (tree_of image.now) i ≡ true }
    ensures { result ≡ complete (tree_of image.now) i }
{
    let role = index::role_of(image, index, i);
    match role {
        Role::Root => has_base(image),
        Role::Zone => types::zone_type_of(image, index, i).is_some(),
        Role::Elements => section_complete(image, index, i),
        _ => true,
    }
}

// Node i is the ZoneType of a zone, or the ElementRange or ElementConnectivity of a section: rule 23 above it says that it meets 24 and 25.
pub fn is_required(image: &[u8], index: &[u16], i: usize) -> bool
    requires { Index image.now index.now × (i < node_count image.now) }
    ensures { result ≡ is_required (tree_of image.now) i }
{
    if i == 0 {
        return false;
    }
    let up = records::parent_of(image, i);
    let Some(kind) = index::kind_of(image, index, up) else {
        return false;
    };
    match kind {
        Role::Zone => index::zone_type(image, index, up) == Some(i),
        Role::Elements => index::range(image, index, up) == Some(i)
            || index::connectivity(image, index, up) == Some(i),
        _ => false,
    }
}
