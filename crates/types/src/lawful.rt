// Rule 24: the data type and the dimensions are the label's.
ghost use Rattle.std.specs.Prelude.{◌≡◌, ◌&&◌, [], ◌∷◌, ◌*◌, ◌≤◌, ◌<◌, take};
ghost use Rattle.model.specs.Image.{tree_of, node_count, parent, I4, I8};
ghost use Rattle.model.specs.Given.{Sound};
ghost use Rattle.model.specs.Values.{typed, shaped, index_dimension, zone_above, range_shape, list_shape, type_lawful};
ghost use Rattle.index.specs.Index.{Index};
ghost use Rattle.types.specs.Given.{ZoneInBase, HeldContext, NodeContext};

use super::arrays::array_type;
use super::shapes::{shaped, text_shape, typed, typed_either};
use super::zones::{dimension_above, index_dimension};
use labels::Role;
use records::{RecordNumbers, data_types};

// The data type is a, and the dimensions are the first n of these sizes.
fn typed_shaped(image: &[u8], i: usize, a: u64, n: usize, sizes: [u64; 3]) -> bool
    requires { (Sound image.now × (i < node_count image.now)) × (n ≤ 3) }
    ensures { result ≡ (typed (tree_of image.now) i (a ∷ []) && shaped (tree_of image.now) i (take n sizes)) }
{
    typed(image, i, a) && shaped(image, i, n, sizes)
}

// The data type is I4 or I8, and the dimensions are the first n of these sizes.
fn whole_shaped(image: &[u8], i: usize, n: usize, sizes: [u64; 3]) -> bool
    requires { (Sound image.now × (i < node_count image.now)) × (n ≤ 3) }
    ensures { result ≡ (typed (tree_of image.now) i (I4 ∷ I8 ∷ []) && shaped (tree_of image.now) i (take n sizes)) }
{
    typed_either(image, i, data_types::I4, data_types::I8) && shaped(image, i, n, sizes)
}

// Zone_t: I4 or I8 [IndexDimension, 3].
fn zone_shape(image: &[u8], index: &[u16], z: usize) -> bool
    requires { Index image.now index.now × ZoneInBase image.now z }
    ensures { result ≡ (typed (tree_of image.now) z (I4 ∷ I8 ∷ [])
        && shaped (tree_of image.now) z (index_dimension (tree_of image.now) z ∷ 3 ∷ [])) }
{
    whole_shaped(image, z, 2, [index_dimension(image, index, z), 3, 0])
}

// Rind_t: I4 [2 × IndexDimension] of the zone two above.
fn rind_shape(image: &[u8], index: &[u16], i: usize) -> bool
    requires { (Index image.now index.now × (parent (tree_of image.now) i < node_count image.now))
        × ((i < node_count image.now) × ZoneInBase image.now (zone_above (tree_of image.now) i)) }
    ensures { result ≡ (typed (tree_of image.now) i (I4 ∷ [])
        && shaped (tree_of image.now) i (2 * index_dimension (tree_of image.now) (zone_above (tree_of image.now) i) ∷ [])) }
{
    typed_shaped(
        image,
        i,
        data_types::I4,
        1,
        [2 * dimension_above(image, index, i), 0, 0],
    )
}

// IndexRange_t: I4 or I8, [2] under a section, [IndexDimension, 2] under flow.
fn range_shape(image: &[u8], index: &[u16], i: usize) -> bool
    requires { (Index image.now index.now × (i < node_count image.now)) × HeldContext image.now i }
    ensures { result ≡ (typed (tree_of image.now) i (I4 ∷ I8 ∷ []) && range_shape (tree_of image.now) i) }
{
    let above = index::role_of(image, index, records::parent_of(image, i));
    match above {
        Role::Elements => whole_shaped(image, i, 1, [2, 0, 0]),
        Role::FlowSolution => {
            whole_shaped(image, i, 2, [dimension_above(image, index, i), 2, 0])
        }
        _ => false,
    }
}

// IndexArray_t: I4 or I8 [IndexDimension, count] under flow.
fn list_shape(image: &[u8], index: &[u16], i: usize) -> bool
    requires { (Index image.now index.now × (i < node_count image.now)) × HeldContext image.now i }
    ensures { result ≡ (typed (tree_of image.now) i (I4 ∷ I8 ∷ []) && list_shape (tree_of image.now) i) }
{
    let above = index::role_of(image, index, records::parent_of(image, i));
    if above != Role::FlowSolution {
        return false;
    }
    if RecordNumbers::read(image, i).rank != 2 {
        return false;
    }
    let count = records::dimension(image, i, 1);
    whole_shaped(image, i, 2, [dimension_above(image, index, i), count, 0])
}

// Rule 24 at node i.
pub fn type_lawful(image: &[u8], index: &[u16], i: usize) -> bool
    requires { Index image.now index.now × NodeContext image.now i }
    ensures { result ≡ type_lawful (tree_of image.now) i }
{
    let role = index::role_of(image, index, i);
    match role {
        Role::LibraryVersion => typed_shaped(image, i, data_types::R4, 1, [1, 0, 0]),
        Role::Base | Role::Elements => typed_shaped(image, i, data_types::I4, 1, [2, 0, 0]),
        Role::Zone => zone_shape(image, index, i),
        Role::ZoneType | Role::GridLocation | Role::Descriptor => text_shape(image, i),
        Role::GridCoordinates | Role::UserDefinedData => typed(image, i, data_types::MT),
        Role::FlowSolution | Role::Root => typed(image, i, data_types::MT),
        Role::IndexRange => range_shape(image, index, i),
        Role::Rind => rind_shape(image, index, i),
        Role::DataArray => array_type(image, index, i),
        Role::IndexArray => list_shape(image, index, i),
    }
}
