// A zone's type and IndexDimension.
ghost use Rattle.std.specs.Prelude.{◌≡◌, ◌≤◌, ◌<◌};
ghost use Rattle.model.specs.Image.{tree_of, node_count, parent};
ghost use Rattle.model.specs.Containment.{Zone};
ghost use Rattle.model.specs.Given.{Sound};
ghost use Rattle.model.specs.Found.{if_below};
ghost use Rattle.model.specs.Values.{zone_type_of, structured, unstructured, index_dimension, zone_above};
ghost use Rattle.model.specs.Values.{structured as isStructured};
ghost use Rattle.index.specs.Index.{kind, Index};
ghost use Rattle.types.specs.Given.{ZoneInBase, zone_type_reads};

use super::shapes::text_shape;
use super::stored_numbers::whole;
use super::stored_texts::{reads, zone_type_value};

// The zone's conforming ZoneType.
pub fn zone_type_of(image: &[u8], index: &[u16], z: usize) -> Option<usize>
    requires index { Index image.now index.now × (z < node_count image.now) }
    requires z_value { kind (tree_of image.now) z ≡ Zone }
    ensures { result ≡ if_below (node_count image.now) (zone_type_of (tree_of image.now) z) }
{
    let j = index::zone_type(image, index, z)?;
    if !text_shape(image, j) {
        return None;
    }
    zone_type_value(image, j).then_some(j)
}

// The zone's ZoneType has the shape of one and reads this text.
fn zone_type_reads(image: &[u8], index: &[u16], z: usize, text: &[u8]) -> bool
    requires index { Index image.now index.now × (z < node_count image.now) }
    requires z_value { kind (tree_of image.now) z ≡ Zone }
    ensures { result ≡ zone_type_reads (tree_of image.now) z text.now }
{
    let Some(j) = index::zone_type(image, index, z) else {
        return false;
    };
    text_shape(image, j) && reads(image, j, text)
}

// The zone is structured. This and the next promise two definitions of the model by one function.
pub fn structured(image: &[u8], index: &[u16], z: usize) -> bool
    requires index { Index image.now index.now × (z < node_count image.now) }
    requires z_value { kind (tree_of image.now) z ≡ Zone }
    ensures { result ≡ structured (tree_of image.now) z }
{
    zone_type_reads(image, index, z, b"Structured")
}

// The zone is unstructured.
pub fn unstructured(image: &[u8], index: &[u16], z: usize) -> bool
    requires index { Index image.now index.now × (z < node_count image.now) }
    requires z_value { kind (tree_of image.now) z ≡ Zone }
    ensures { result ≡ unstructured (tree_of image.now) z }
{
    zone_type_reads(image, index, z, b"Unstructured")
}

// IndexDimension of a zone that is structured or not: CellDimension of the base if it is, else 1.
pub fn dimension_of(image: &[u8], z: usize, structured: bool) -> u64
    requires sound { Sound image.now × ZoneInBase image.now z }
    requires structured_value { structured ≡ isStructured (tree_of image.now) z }
    ensures { (result ≡ index_dimension (tree_of image.now) z) × (1 ≤ result) × (result ≤ 3) }
{
    if !structured {
        return 1;
    }
    whole(image, records::parent_of(image, z), 0)
}

// IndexDimension.
pub fn index_dimension(image: &[u8], index: &[u16], z: usize) -> u64
    requires { Index image.now index.now × ZoneInBase image.now z }
    ensures { (result ≡ index_dimension (tree_of image.now) z) × (1 ≤ result) × (result ≤ 3) }
{
    dimension_of(image, z, structured(image, index, z))
}

// IndexDimension of the zone two above node i.
pub fn dimension_above(image: &[u8], index: &[u16], i: usize) -> u64
    requires { (Index image.now index.now × (parent (tree_of image.now) i < node_count image.now))
        × ((i < node_count image.now) × ZoneInBase image.now (zone_above (tree_of image.now) i)) }
    ensures { (result ≡ index_dimension (tree_of image.now) (zone_above (tree_of image.now) i)) × (1 ≤ result) × (result ≤ 3) }
{
    let zone = records::parent_of(image, records::parent_of(image, i));
    index_dimension(image, index, zone)
}
