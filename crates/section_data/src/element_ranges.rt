// The element ranges of sections, of all zones in one pair of tables: rule 28, the faces of rules 35 to 37, the cells of rule 39; the elements of a zone.
ghost use Rattle.std.specs.Prelude.{◌≡◌, ◌&&◌, ◌≤◌, ◌<◌, ◌+◌, length};
ghost use Rattle.model.specs.Found.{if_below};
ghost use Rattle.model.specs.Lists.{seek_from};
ghost use Rattle.model.specs.Image.{tree_of, node_count, parent};
ghost use Rattle.model.specs.Given.{Sound};
ghost use Rattle.model.specs.Containment.{role, found, Elements};
ghost use Rattle.model.specs.Values.{type_lawful, value_lawful, range_of};
ghost use Rattle.model.specs.Elements.{element_count, in_range, has_element, element_of};
ghost use Rattle.index.specs.Index.{Index, kind};
ghost use Rattle.ranges.specs.Tables.{Gathered};
ghost use Rattle.section_data.specs.Given.{Ranged};
ghost use Rattle.section_data.specs.Ranges.{is_wanted, is_ranged, first_key, last_key, range_if, overlap_at, of_type, TableOf, Faces, Cells};

use element_types::{NFACE, NGON};
use labels::Role;
use records::data_types::I4;
use sids::range_of;

// Does section i meet rules 24 and 25?
fn is_lawful(image: &[u8], i: usize) -> bool
    requires { (Sound image.now × (i < node_count image.now)) × (role (tree_of image.now) i ≡ Elements) }
    ensures { result ≡ (type_lawful (tree_of image.now) i && value_lawful (tree_of image.now) i) }
{
    if !types::typed(image, i, I4) {
        return false;
    }
    if !types::shaped(image, i, 1, [2, 0, 0]) {
        return false;
    }
    types::not_negative(image, i, 1)
}

// Does section i count: where a type is asked for, does it meet rules 24 and 25, and have the type? 0 asks for any section.
fn is_wanted(image: &[u8], element_type: u64, i: usize) -> bool
    requires { (Sound image.now × (i < node_count image.now)) × (role (tree_of image.now) i ≡ Elements) }
    ensures { result ≡ is_wanted (tree_of image.now) element_type i }
{
    if element_type == 0 {
        return true;
    }
    if !is_lawful(image, i) {
        return false;
    }
    types::whole(image, i, 0) == element_type
}

// The ElementRange of node i where it is a section, of the type that is asked for.
pub fn range_if(image: &[u8], index: &[u16], element_type: u64, i: usize) -> Option<usize>
    requires { Index image.now index.now × (i < node_count image.now) }
    ensures { result ≡ range_if (tree_of image.now) element_type i }
{
    if !index::validated_as(image, index, Role::Elements, i) {
        return None;
    }
    if !is_wanted(image, element_type, i) {
        return None;
    }
    range_of(image, index, i)
}

// The keys of a section's first and last element.
#[derive(Clone, Copy)]
struct Keys {
    first: u64,
    last: u64,
}

// The keys of section i, by its ElementRange.
fn keys_of(image: &[u8], i: usize, range: usize) -> Keys
    requires sound { (Sound image.now × (i < node_count image.now)) × (parent (tree_of image.now) i < node_count image.now) }
    requires range_value { (range ≡ range_of (tree_of image.now) i) × Ranged image.now i }
    ensures first_value { (result.first ≡ first_key (tree_of image.now) i) × (result.last ≡ last_key (tree_of image.now) i) }
    ensures first_bound { (result.first < 17592186044416) × (result.last < 17592186044416) }
{
    let zone = records::parent_of(image, i);
    let first = ranges::key(zone, types::whole(image, range, 0));
    let last = ranges::key(zone, types::whole(image, range, 1));
    Keys { first, last }
}

// Puts the range of node i among the n of the nodes before it, where it is such a section. It answers how many there are.
fn gather_node(
    image: &[u8],
    index: &[u16],
    element_type: u64,
    i: usize,
    firsts: &mut [u64],
    reach: &mut [u64],
    n: usize,
) -> usize
    requires index { Index image.now index.now × (i < node_count image.now) }
    requires gathered { Gathered (is_ranged (tree_of image.now) element_type) (first_key (tree_of image.now)) (last_key (tree_of image.now)) firsts.old reach.old n i }
    requires in_bounds { (2048 ≤ length firsts.old) × (2048 ≤ length reach.old) }
    ensures { Gathered (is_ranged (tree_of image.now) element_type) (first_key (tree_of image.now)) (last_key (tree_of image.now))
        firsts.new reach.new result (i + 1) }
{
    let Some(range) = range_if(image, index, element_type, i) else {
        return n;
    };
    let keys = keys_of(image, i, range);
    ranges::insert(firsts, reach, n, keys.first, keys.last);
    n + 1
}

// Does the range of node i meet that of an earlier section of its zone? The n ranges are those of the nodes before it.
fn meets_earlier(
    image: &[u8],
    index: &[u16],
    i: usize,
    firsts: &[u64],
    reach: &[u64],
    n: usize,
) -> bool
    requires index { Index image.now index.now × (i < node_count image.now) }
    requires gathered { Gathered (is_ranged (tree_of image.now) 0) (first_key (tree_of image.now)) (last_key (tree_of image.now)) firsts.now reach.now n i }
    ensures { result ≡ overlap_at (tree_of image.now) i }
{
    let Some(range) = range_if(image, index, 0, i) else {
        return false;
    };
    let keys = keys_of(image, i, range);
    ranges::meets(firsts, reach, n, keys.first, keys.last)
}

// The first node whose range meets that of an earlier section of its zone.
pub fn first_overlap(
    image: &[u8],
    index: &[u16],
    firsts: &mut [u64],
    reach: &mut [u64],
) -> Option<usize>
    requires index { Index image.now index.now }
    requires in_bounds { (2048 ≤ length firsts.old) × (2048 ≤ length reach.old) }
    ensures { result ≡ if_below (node_count image.now) (seek_from (overlap_at (tree_of image.now)) (node_count image.now) 0) }
{
    let nodes = labels::node_count(image);
    let mut n = 0;
    for i in 0..nodes {
        if meets_earlier(image, index, i, firsts, reach, n) {
            return Some(i);
        }
        n = gather_node(image, index, 0, i, firsts, reach, n);
    }
    None
}

// The ranges of the sections of one type, of all zones. It answers how many there are.
fn gather(
    image: &[u8],
    index: &[u16],
    element_type: u64,
    firsts: &mut [u64],
    reach: &mut [u64],
) -> usize
    requires index { Index image.now index.now × (0 < element_type) }
    requires in_bounds { (2048 ≤ length firsts.old) × (2048 ≤ length reach.old) }
    ensures { TableOf (of_type (tree_of image.now) element_type) firsts.new reach.new result }
{
    let nodes = labels::node_count(image);
    let mut n = 0;
    for i in 0..nodes {
        n = gather_node(image, index, element_type, i, firsts, reach, n);
    }
    n
}

// The ranges of the faces of all zones. It answers how many there are. This and the next promise two tables by one function.
pub fn gather_faces(image: &[u8], index: &[u16], firsts: &mut [u64], reach: &mut [u64]) -> usize
    requires index { Index image.now index.now }
    requires in_bounds { (2048 ≤ length firsts.old) × (2048 ≤ length reach.old) }
    ensures { Faces (tree_of image.now) firsts.new reach.new result }
{
    gather(image, index, NGON, firsts, reach)
}

// The ranges of the cells of all zones. It answers how many there are.
pub fn gather_cells(image: &[u8], index: &[u16], firsts: &mut [u64], reach: &mut [u64]) -> usize
    requires index { Index image.now index.now }
    requires in_bounds { (2048 ≤ length firsts.old) × (2048 ≤ length reach.old) }
    ensures { Cells (tree_of image.now) firsts.new reach.new result }
{
    gather(image, index, NFACE, firsts, reach)
}

// How many elements section i has, one of those that count.
pub fn element_count(image: &[u8], range: usize, i: usize) -> u64
    requires { Sound image.now × ((range ≡ range_of (tree_of image.now) i) × Ranged image.now i) }
    ensures { (result ≡ element_count (tree_of image.now) i) × (result ≤ 2147483647) }
{
    let first = types::whole(image, range, 0);
    let last = types::whole(image, range, 1);
    last - first + 1
}

// Does the range of section i, one of those that count, hold element e?
fn in_range(image: &[u8], range: usize, i: usize, e: u64) -> bool
    requires { Sound image.now × ((range ≡ range_of (tree_of image.now) i) × Ranged image.now i) }
    ensures { result ≡ in_range (tree_of image.now) i e }
{
    let first = types::whole(image, range, 0);
    let last = types::whole(image, range, 1);
    first <= e && e <= last
}

// Does section i, whose own data and range are to count, have element e?
fn section_has(image: &[u8], index: &[u16], i: usize, e: u64) -> bool
    requires { (Index image.now index.now × (i < node_count image.now)) × (kind (tree_of image.now) i ≡ Elements) }
    ensures { result ≡ (type_lawful (tree_of image.now) i && value_lawful (tree_of image.now) i
        && found (tree_of image.now) (range_of (tree_of image.now) i) && in_range (tree_of image.now) i e) }
{
    if !is_lawful(image, i) {
        return false;
    }
    let Some(range) = range_of(image, index, i) else {
        return false;
    };
    in_range(image, range, i, e)
}

// Does node i bring element e to zone z?
fn has_element(image: &[u8], index: &[u16], z: usize, e: u64, i: usize) -> bool
    requires { Index image.now index.now × (i < node_count image.now) }
    ensures { result ≡ has_element (tree_of image.now) z e i }
{
    if records::parent_of(image, i) != z {
        return false;
    }
    if !index::validated_as(image, index, Role::Elements, i) {
        return false;
    }
    section_has(image, index, i, e)
}

// Is e an element of zone z?
pub fn is_element(image: &[u8], index: &[u16], z: usize, e: u64) -> bool
    requires { Index image.now index.now }
    ensures { result ≡ element_of (tree_of image.now) z e }
{
    let n = labels::node_count(image);
    for i in 0..n {
        if has_element(image, index, z, e, i) {
            return true;
        }
    }
    false
}
