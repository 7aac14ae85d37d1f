// Stored texts.
ghost use Rattle.std.specs.Prelude.{◌≡◌, ◌||◌, ◌<◌, ℕ, Some};
ghost use Rattle.std.specs.Option.{unwrap_or};
ghost use Rattle.model.specs.Image.{tree_of, node_count};
ghost use Rattle.model.specs.Given.{Sound};
ghost use Rattle.model.specs.Values.{reads, location_value, zone_type_value};

use records::RecordNumbers;

// The data of node i are this text.
pub fn reads(image: &[u8], i: usize, text: &[u8]) -> bool
    requires { Sound image.now × (i < node_count image.now) }
    ensures { result ≡ reads (tree_of image.now) i text.now }
{
    labels::same_at(
        image,
        records::data_start(image, i),
        RecordNumbers::read(image, i).data_size as usize,
        text,
    )
}

// The same of a child that may be missing.
pub fn reads_if_found(image: &[u8], i: Option<usize>, text: &[u8]) -> bool
    requires { Sound image.now × ((j : ℕ) → i ≡ Some j → j < node_count image.now) }
    ensures { result ≡ reads (tree_of image.now) (unwrap_or i (node_count image.now)) text.now }
{
    match i {
        Some(j) => reads(image, j, text),
        None => text.len() == 0,
    }
}

// They are one of two texts: what the next two ask, each of other texts.
fn reads_either(image: &[u8], i: usize, one: &[u8], other: &[u8]) -> bool
    requires { Sound image.now × (i < node_count image.now) }
    ensures { result ≡ (reads (tree_of image.now) i one.now || reads (tree_of image.now) i other.now) }
{
    reads(image, i, one) || reads(image, i, other)
}

// GridLocation_t: exactly Vertex or CellCenter.
pub fn location_value(image: &[u8], i: usize) -> bool
    requires { Sound image.now × (i < node_count image.now) }
    ensures { result ≡ location_value (tree_of image.now) i }
{
    reads_either(image, i, b"Vertex", b"CellCenter")
}

// ZoneType_t: exactly Structured or Unstructured.
pub fn zone_type_value(image: &[u8], i: usize) -> bool
    requires { Sound image.now × (i < node_count image.now) }
    ensures { result ≡ zone_type_value (tree_of image.now) i }
{
    reads_either(image, i, b"Structured", b"Unstructured")
}
