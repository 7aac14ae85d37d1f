// Rule 24 of DataArray_t.
ghost use Rattle.std.specs.Prelude.{◌≡◌, [], ◌∷◌, ◌<◌, true};
ghost use Rattle.model.specs.Image.{tree_of, node_count, parent, I4, I8, R4, R8};
ghost use Rattle.model.specs.Given.{Sound};
ghost use Rattle.model.specs.Containment.{validated};
ghost use Rattle.model.specs.Values.{typed, element_array, section_array_type, array_type};
ghost use Rattle.index.specs.Index.{Index};

use super::shapes::{flat, typed, typed_either};
use labels::{Name, Role};
use records::data_types;

// The name is ElementConnectivity or ElementStartOffset.
fn element_array(image: &[u8], i: usize) -> bool
    requires { Sound image.now × (i < node_count image.now) }
    ensures { result ≡ element_array (tree_of image.now) i }
{
    labels::name_is(image, i, Name::ElementConnectivity)
        || labels::name_is(image, i, Name::ElementStartOffset)
}

// Under a section: those two I4 or I8 with one dimension, others anything but MT.
fn section_array_type(image: &[u8], i: usize) -> bool
    requires { Sound image.now × (i < node_count image.now) }
    ensures { result ≡ section_array_type (tree_of image.now) i }
{
    if !element_array(image, i) {
        return !typed(image, i, data_types::MT);
    }
    typed_either(image, i, data_types::I4, data_types::I8) && flat(image, i)
}

// I4, I8, R4 or R8.
fn number_type(image: &[u8], i: usize) -> bool
    requires { Sound image.now × (i < node_count image.now) }
    ensures { result ≡ typed (tree_of image.now) i (I4 ∷ I8 ∷ R4 ∷ R8 ∷ []) }
{
    typed_either(image, i, data_types::I4, data_types::I8)
        || typed_either(image, i, data_types::R4, data_types::R8)
}

// DataArray_t: R4 or R8 under coordinates; I4, I8, R4, R8 under flow; under a section as above.
pub fn array_type(image: &[u8], index: &[u16], i: usize) -> bool
    requires index { Index image.now index.now × (i < node_count image.now) }
    requires i_bound { (parent (tree_of image.now) i < node_count image.now) × (validated (tree_of image.now) (parent (tree_of image.now) i) ≡ true) }
    ensures { result ≡ array_type (tree_of image.now) i }
{
    let role = index::role_of(image, index, records::parent_of(image, i));
    match role {
        Role::GridCoordinates => typed_either(image, i, data_types::R4, data_types::R8),
        Role::FlowSolution => number_type(image, i),
        Role::Elements => section_array_type(image, i),
        _ => false,
    }
}
