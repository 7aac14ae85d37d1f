// The points of a PointRange and of a PointList under a flow solution.
#![tactic(auto)]

ghost use Rattle.std.specs.Prelude.{◌≡◌, true, cond, ◌+◌, ◌-◌, ◌^◌, ◌≤◌, ◌<◌, T, eqb};
ghost use Rattle.model.specs.Bytes.{distance};
ghost use Rattle.model.specs.Image.{tree_of, node_count};
ghost use Rattle.model.specs.Given.{Sound};
ghost use Rattle.model.specs.Containment.{FlowSolution, IndexRange, role};
ghost use Rattle.model.specs.Values.{index_dimension, zone_above, type_lawful, value_lawful, index_range_value, not_both};
ghost use Rattle.model.specs.Values.{direction_lawful, point_range_value, points_in, points};
ghost use Rattle.words.specs.Width.{is_width};
ghost use Rattle.index.specs.Index.{kind, Index};
ghost use Rattle.types.specs.Given.{NodeContext};
ghost use Rattle.points.specs.Given.{TypedRange};
ghost use Rattle.points.specs.Between.{lawful_between};

use labels::Role;

// The distance of a signed number from the smallest one of its width.
fn distance(x: u64, width: usize) -> u64
    requires { (T (is_width width)) × (x < 256 ^ width) }
    ensures { result ≡ distance width x }
{
    let half = rows::half_of(width);
    if x < half {
        return x + half;
    }
    x - half
}

// The points from one signed number to another: end − begin + 1; 0 where one of them is beyond ±2,147,483,647 or the begin is above the end.
fn points_between(begin: u64, end: u64, width: usize) -> u64
    requires { (T (is_width width)) × ((begin < 256 ^ width) × (end < 256 ^ width)) }
    ensures { (result ≡ cond (lawful_between width begin end) (distance width end - distance width begin + 1) 0) × (result ≤ 4294967295) }
{
    let half = rows::half_of(width);
    let first = distance(begin, width);
    let last = distance(end, width);
    if first < half - types::MAX_NUMBER {
        return 0;
    }
    if half + types::MAX_NUMBER < last {
        return 0;
    }
    if last < first {
        return 0;
    }
    last - first + 1
}

// The points of a PointRange in direction d of n; 0 where its begin and end are not permitted.
fn points_in(image: &[u8], i: usize, n: usize, d: usize) -> u64
    requires sound { Sound image.now × TypedRange image.now i }
    requires n_value { (n ≡ index_dimension (tree_of image.now) (zone_above (tree_of image.now) i)) × ((n ≤ 3) × (d < n)) }
    ensures { (result ≡ cond (direction_lawful (tree_of image.now) i d) (points_in (tree_of image.now) i d) 0) × (result ≤ 4294967295) }
{
    let wide = records::width_at(image, i);
    let begin = records::number(image, i, d, wide);
    let end = records::number(image, i, n + d, wide);
    points_between(begin, end, wide)
}

// Rule 25 of a PointRange, direction by direction.
fn point_range_value(image: &[u8], index: &[u16], i: usize) -> bool
    requires { Index image.now index.now × TypedRange image.now i }
    ensures { result ≡ point_range_value (tree_of image.now) i }
{
    let n = types::dimension_above(image, index, i) as usize;
    for d in 0..n {
        if points_in(image, i, n, d) == 0 {
            return false;
        }
    }
    true
}

// Rule 25 of IndexRange_t: an ElementRange under a section, a PointRange under flow.
pub fn index_range_value(image: &[u8], index: &[u16], i: usize) -> bool
    requires index { (Index image.now index.now × NodeContext image.now i) × (type_lawful (tree_of image.now) i ≡ true) }
    requires i_value { role (tree_of image.now) i ≡ IndexRange }
    ensures { result ≡ index_range_value (tree_of image.now) i }
{
    let above = index::role_of(image, index, records::parent_of(image, i));
    match above {
        Role::Elements => types::pair_within(image, i, types::MAX_NUMBER),
        Role::FlowSolution => point_range_value(image, index, i),
        _ => true,
    }
}

// Rule 25 of FlowSolution_t: not both a PointRange and a PointList.
pub fn not_both(image: &[u8], index: &[u16], p: usize) -> bool
    requires index { Index image.now index.now × (p < node_count image.now) }
    requires p_value { kind (tree_of image.now) p ≡ FlowSolution }
    ensures { result ≡ not_both (tree_of image.now) p }
{
    if index::point_range(image, index, p).is_none() {
        return true;
    }
    index::point_list(image, index, p).is_none()
}

// Does a conforming PointRange have so many points? The product of the directions leaves off where it would be above them, so it never wraps.
pub fn has_points(image: &[u8], index: &[u16], i: usize, size: u64) -> bool
    requires { Index image.now index.now × (TypedRange image.now i × (value_lawful (tree_of image.now) i ≡ true)) }
    ensures { result ≡ eqb size (points (tree_of image.now) i) }
{
    let n = types::dimension_above(image, index, i) as usize;
    let mut product: u64 = 1;
    for d in 0..n {
        let k = points_in(image, i, n, d);
        if size / k < product {
            return false;
        }
        product *= k;
    }
    size == product
}
