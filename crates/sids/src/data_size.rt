// DataSize: the sizes of the arrays under a GridCoordinates_t or FlowSolution_t node p.
ghost use Rattle.std.specs.Prelude.{◌≡◌, true, [], ◌∷◌, ◌+◌, ◌*◌, ◌≤◌, ◌<◌};
ghost use Rattle.model.specs.Bytes.{text};
ghost use Rattle.model.specs.Image.{tree_of, node_count, parent};
ghost use Rattle.model.specs.Given.{Sound};
ghost use Rattle.model.specs.Found.{if_below};
ghost use Rattle.model.specs.Containment.{Rind, FlowSolution};
ghost use Rattle.model.specs.Values.{index_dimension, conforming, cell_centred, rind_number, data_size, shaped, value_lawful, points, sizes_by_zone, data_sizes};
ghost use Rattle.index.specs.Index.{kind, Index};
ghost use Rattle.sids.specs.Given.{UnderZone, Sized};
ghost use Rattle.points.specs.Given.{TypedRange};
ghost use Rattle.sids.specs.Sizes.{direction, directions, inner_size};

use super::children::{conforming, point_list_of, point_range_of};
use super::zone::sizes_from;
use labels::Role;

// What a direction without rind adds.
const NO_RIND: u64 = 0;

// The arrays under p stand at CellCenter.
fn cell_centred(image: &[u8], index: &[u16], p: usize) -> bool
    requires { Index image.now index.now × Sized image.now p }
    ensures { result ≡ cell_centred (tree_of image.now) p }
{
    if !index::validated_as(image, index, Role::FlowSolution, p) {
        return false;
    }
    types::reads_if_found(
        image,
        conforming(image, index, index::location(image, index, p)),
        b"CellCenter",
    )
}

// VertexSize, or CellSize for CellCenter, in each of n directions.
fn inner_sizes(image: &[u8], index: &[u16], p: usize, n: usize) -> [u64; 3]
    requires index { Index image.now index.now × Sized image.now p }
    requires n_value { (n ≡ index_dimension (tree_of image.now) (parent (tree_of image.now) p)) × (n ≤ 3) }
    ensures { result ≡ directions (inner_size (tree_of image.now) p)
        (index_dimension (tree_of image.now) (parent (tree_of image.now) p)) }
{
    let zone = records::parent_of(image, p);
    if cell_centred(image, index, p) {
        return sizes_from(image, zone, n, n);
    }
    sizes_from(image, zone, n, 0)
}

// The two rind numbers of direction d, summed; 0 where no Rind conforms.
fn rind_sum(image: &[u8], p: usize, rind: Option<usize>, d: usize) -> u64
    requires sound { Sound image.now × UnderZone image.now p }
    requires rind_value { (rind ≡ if_below (node_count image.now) (conforming (tree_of image.now) p Rind (text "Rind"))) × (d < index_dimension (tree_of image.now) (parent (tree_of image.now) p)) }
    requires d_bound { d < 3 }
    ensures { (result ≡ rind_number (tree_of image.now) p (2 * d) + rind_number (tree_of image.now) p (2 * d + 1)) × (result ≤ 4294967294) }
{
    let Some(rind) = rind else {
        return NO_RIND;
    };
    types::whole(image, rind, 2 * d) + types::whole(image, rind, 2 * d + 1)
}

// The zone's size in direction d of n; 0 where the zone lacks it.
fn data_size_at(
    image: &[u8],
    p: usize,
    rind: Option<usize>,
    n: usize,
    inner: [u64; 3],
    d: usize,
) -> u64
    requires sound { Sound image.now × UnderZone image.now p }
    requires rind_value { (rind ≡ if_below (node_count image.now) (conforming (tree_of image.now) p Rind (text "Rind"))) × (n ≡ index_dimension (tree_of image.now) (parent (tree_of image.now) p)) }
    requires n_bound { (n ≤ 3) × (d < 3) }
    requires inner_value { inner ≡ directions (inner_size (tree_of image.now) p) (index_dimension (tree_of image.now) (parent (tree_of image.now) p)) }
    ensures { result ≡ direction (data_size (tree_of image.now) p) n d }
{
    if n <= d {
        return 0;
    }
    inner[d] + rind_sum(image, p, rind, d)
}

// The zone's sizes under node p in each of n directions; 0 in a direction that the zone lacks.
fn data_sizes(image: &[u8], index: &[u16], p: usize, n: usize) -> [u64; 3]
    requires index { Index image.now index.now × Sized image.now p }
    requires n_value { (n ≡ index_dimension (tree_of image.now) (parent (tree_of image.now) p)) × (n ≤ 3) }
    ensures { result ≡ directions (data_size (tree_of image.now) p) n }
{
    let inner = inner_sizes(image, index, p, n);
    let rind = conforming(image, index, index::rind(image, index, p));
    let i = data_size_at(image, p, rind, n, inner, 0);
    let j = data_size_at(image, p, rind, n, inner, 1);
    let k = data_size_at(image, p, rind, n, inner, 2);
    [i, j, k]
}

// Array i under node p has the zone's sizes.
fn zone_sized(image: &[u8], index: &[u16], p: usize, i: usize) -> bool
    requires index { Index image.now index.now × Sized image.now p }
    requires i_bound { i < node_count image.now }
    ensures { result ≡ shaped (tree_of image.now) i (sizes_by_zone (tree_of image.now) p) }
{
    let n = types::index_dimension(image, index, records::parent_of(image, p)) as usize;
    types::shaped(image, i, n, data_sizes(image, index, p, n))
}

// Array i has one size, the points of a conforming PointRange.
fn range_sized(image: &[u8], index: &[u16], range: usize, i: usize) -> bool
    requires index { Index image.now index.now × (TypedRange image.now range × (value_lawful (tree_of image.now) range ≡ true)) }
    requires i_bound { i < node_count image.now }
    ensures { result ≡ shaped (tree_of image.now) i (points (tree_of image.now) range ∷ []) }
{
    if !types::flat(image, i) {
        return false;
    }
    points::has_points(image, index, range, records::dimension(image, i, 0))
}

// Array i under a flow solution has the sizes of DataSize.
fn flow_sized(image: &[u8], index: &[u16], p: usize, i: usize) -> bool
    requires index { Index image.now index.now × Sized image.now p }
    requires p_value { (kind (tree_of image.now) p ≡ FlowSolution) × (i < node_count image.now) }
    ensures { result ≡ shaped (tree_of image.now) i (data_sizes (tree_of image.now) p) }
{
    if let Some(range) = point_range_of(image, index, p) {
        return range_sized(image, index, range, i);
    }
    if let Some(list) = point_list_of(image, index, p) {
        return types::shaped(image, i, 1, [records::dimension(image, list, 1), 0, 0]);
    }
    zone_sized(image, index, p, i)
}

// Array i under node p has the sizes of DataSize. Coordinates have the zone's.
pub fn has_data_size(image: &[u8], index: &[u16], p: usize, i: usize) -> bool
    requires index { Index image.now index.now × Sized image.now p }
    requires i_bound { i < node_count image.now }
    ensures { result ≡ shaped (tree_of image.now) i (data_sizes (tree_of image.now) p) }
{
    if index::validated_as(image, index, Role::FlowSolution, p) {
        return flow_sized(image, index, p, i);
    }
    zone_sized(image, index, p, i)
}
