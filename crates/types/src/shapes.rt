// Data types and dimensions.
ghost use Rattle.std.specs.Prelude.{◌≡◌, [], ◌∷◌, ◌≤◌, ◌<◌, take};
ghost use Rattle.model.specs.Image.{tree_of, node_count, dimensions};
ghost use Rattle.model.specs.Bounds.{Laid};
ghost use Rattle.model.specs.Given.{Sound};
ghost use Rattle.model.specs.Values.{typed, shaped, flat, zone_type_shape};

use records::{RecordNumbers, data_types};

// The data type of node i is a.
pub fn typed(image: &[u8], i: usize, a: u64) -> bool
    requires { Laid image.now × (i < node_count image.now) }
    ensures { result ≡ typed (tree_of image.now) i (a ∷ []) }
{
    records::data_type_of(image, i) == a
}

// It is a or b: the model has lists of types, and each of the two functions promises one length.
pub fn typed_either(image: &[u8], i: usize, a: u64, b: u64) -> bool
    requires { Laid image.now × (i < node_count image.now) }
    ensures { result ≡ typed (tree_of image.now) i (a ∷ b ∷ []) }
{
    let d = records::data_type_of(image, i);
    d == a || d == b
}

// Node i has one dimension.
pub fn flat(image: &[u8], i: usize) -> bool
    requires { Laid image.now × (i < node_count image.now) }
    ensures { result ≡ flat (tree_of image.now) i }
{
    RecordNumbers::read(image, i).rank == 1
}

// The dimensions of node i are the first n of these sizes.
pub fn shaped(image: &[u8], i: usize, n: usize, sizes: [u64; 3]) -> bool
    requires sound { Sound image.now × (i < node_count image.now) }
    requires n_bound { n ≤ 3 }
    ensures { result ≡ shaped (tree_of image.now) i (take n sizes) }
{
    if RecordNumbers::read(image, i).rank != n as u64 {
        return false;
    }
    for k in 0..n {
        if records::dimension(image, i, k) != sizes[k] {
            return false;
        }
    }
    true
}

// Node i has the dimensions of node j.
pub fn same_shape(image: &[u8], i: usize, j: usize) -> bool
    requires { Sound image.now × ((i < node_count image.now) × (j < node_count image.now)) }
    ensures { result ≡ shaped (tree_of image.now) i (dimensions (tree_of image.now) j) }
{
    let n = RecordNumbers::read(image, i).rank as usize;
    if RecordNumbers::read(image, j).rank as usize != n {
        return false;
    }
    (0..n).all(|k| records::dimension(image, i, k) == records::dimension(image, j, k))
}

// A text: C1 with one dimension.
pub fn text_shape(image: &[u8], i: usize) -> bool
    requires { Laid image.now × (i < node_count image.now) }
    ensures { result ≡ zone_type_shape (tree_of image.now) i }
{
    typed(image, i, data_types::C1) && flat(image, i)
}
