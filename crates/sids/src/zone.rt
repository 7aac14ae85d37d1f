// A zone's sizes.
ghost use Rattle.std.specs.Prelude.{◌≡◌, ◌+◌, ◌*◌, ◌≤◌, ◌<◌, cond};
ghost use Rattle.model.specs.Image.{tree_of, number, width};
ghost use Rattle.model.specs.Given.{Sound};
ghost use Rattle.model.specs.Values.{index_dimension, zone_value};
ghost use Rattle.index.specs.Index.{Index};
ghost use Rattle.sids.specs.Given.{TypedZone};
ghost use Rattle.sids.specs.Sizes.{direction, directions, zone_sizes, size_in, structured_in, unstructured_in};

// The size in direction d of n, of those that stand from `from` on; 0 where the zone lacks it. `wide` is the width of its numbers.
fn size_at(image: &[u8], z: usize, wide: usize, n: usize, from: usize, d: usize) -> u64
    requires sound { Sound image.now × TypedZone image.now z }
    requires n_value { (n ≡ index_dimension (tree_of image.now) z) × ((n ≤ 3) × (from + n ≤ 3 * n)) }
    requires wide_value { wide ≡ width (tree_of image.now) z }
    ensures { result ≡ direction (λ k. number (tree_of image.now) z (from + k)) n d }
{
    if d < n {
        return records::number(image, z, from + d, wide);
    }
    0
}

// The sizes that stand from `from` on, direction by direction.
pub fn sizes_from(image: &[u8], z: usize, n: usize, from: usize) -> [u64; 3]
    requires sound { Sound image.now × TypedZone image.now z }
    requires n_value { (n ≡ index_dimension (tree_of image.now) z) × ((n ≤ 3) × (from + n ≤ 3 * n)) }
    ensures { result ≡ directions (λ k. number (tree_of image.now) z (from + k)) n }
{
    let wide = records::width_at(image, z);
    let i = size_at(image, z, wide, n, from, 0);
    let j = size_at(image, z, wide, n, from, 1);
    let k = size_at(image, z, wide, n, from, 2);
    [i, j, k]
}

// VertexSize, CellSize and VertexSizeBoundary of zone z, which has n directions, one row each.
fn zone_sizes(image: &[u8], z: usize, n: usize) -> [[u64; 3]; 3]
    requires sound { Sound image.now × TypedZone image.now z }
    requires n_value { (n ≡ index_dimension (tree_of image.now) z) × (n ≤ 3) }
    ensures { result ≡ zone_sizes (tree_of image.now) z }
{
    let vertices = sizes_from(image, z, n, 0);
    let cells = sizes_from(image, z, n, n);
    let boundary = sizes_from(image, z, n, 2 * n);
    [vertices, cells, boundary]
}

// Structured, in one direction: VertexSize at least 2, CellSize = VertexSize − 1, boundary 0.
fn structured_sizes(vertices: u64, cells: u64, boundary: u64) -> bool
    ensures { result ≡ structured_in vertices cells boundary }
{
    if vertices < 2 {
        return false;
    }
    if types::MAX_NUMBER < vertices {
        return false;
    }
    if cells != vertices - 1 {
        return false;
    }
    boundary == 0
}

// Unstructured: VertexSize at least 1, CellSize at least 0, boundary 0 to VertexSize.
fn unstructured_sizes(vertices: u64, cells: u64, boundary: u64) -> bool
    ensures { result ≡ unstructured_in vertices cells boundary }
{
    if vertices < 1 {
        return false;
    }
    if types::MAX_NUMBER < vertices {
        return false;
    }
    if types::MAX_NUMBER < cells {
        return false;
    }
    boundary <= vertices
}

// The sizes in direction d are permitted.
fn sizes_permitted(structured: bool, sizes: [[u64; 3]; 3], d: usize) -> bool
    requires { d < 3 }
    ensures { result ≡ cond structured (structured_in (size_in sizes 0 d) (size_in sizes 1 d) (size_in sizes 2 d))
        (unstructured_in (size_in sizes 0 d) (size_in sizes 1 d) (size_in sizes 2 d)) }
{
    let vertices = sizes[0][d];
    let cells = sizes[1][d];
    let boundary = sizes[2][d];
    if structured {
        return structured_sizes(vertices, cells, boundary);
    }
    unstructured_sizes(vertices, cells, boundary)
}

// Rule 25 of Zone_t, direction by direction.
pub fn zone_value(image: &[u8], index: &[u16], z: usize) -> bool
    requires { Index image.now index.now × TypedZone image.now z }
    ensures { result ≡ zone_value (tree_of image.now) z }
{
    let structured = types::structured(image, index, z);
    let n = types::dimension_of(image, z, structured) as usize;
    let sizes = zone_sizes(image, z, n);
    for d in 0..n {
        if !sizes_permitted(structured, sizes, d) {
            return false;
        }
    }
    true
}
