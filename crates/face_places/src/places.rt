// The zone's faces by ranges, in ascending order: entry j begins with face firsts[j], whose place is places[j]; `reach` as the crate `ranges` has it.
ghost use Rattle.std.specs.Prelude.{◌≡◌, ◌+◌, ◌≤◌, ◌<◌, length, get_or};
ghost use Rattle.model.specs.Image.{tree_of, node_count};
ghost use Rattle.model.specs.Given.{Accepted};
ghost use Rattle.index.specs.Index.{Index};
ghost use Rattle.ranges.specs.Tables.{Placed};
ghost use Rattle.face_places.specs.Ranges.{Ranges};

use super::zone_sections::{has_type, span_of};
use element_types::NGON;

// Puts a section of so many faces at a place among n: its first face comes after all that there are.
fn add_place(places: &mut [u64], n: usize, place: usize, faces: u64)
    requires place_le_n { (place ≤ n) × (n + 1 < length places.old) }
    requires n_bound { (get_or places.old n 0 ≤ 8796093018112) × (faces ≤ 2147483647) }
    ensures { Placed (get_or places.old n 0) places.old places.new n place
        × (get_or places.new (n + 1) 0 ≡ get_or places.old n 0 + faces) }
{
    let total = places[n];
    ranges::put(places, n, place, total);
    places[n + 1] = total + faces;
}

// Adds node s to the n entries, where it is a face section of zone z. It answers how many there are.
fn add_section(
    image: &[u8],
    index: &[u16],
    z: usize,
    s: usize,
    firsts: &mut [u64],
    reach: &mut [u64],
    places: &mut [u64],
    n: usize,
) -> usize
    requires accepted { Accepted image.now × (Index image.now index.now × (s < node_count image.now)) }
    requires ranges { Ranges (tree_of image.now) z s firsts.old reach.old places.old n }
    requires in_bounds { (2048 ≤ length firsts.old) × (2048 ≤ length reach.old) × (2049 ≤ length places.old) }
    ensures { Ranges (tree_of image.now) z (s + 1) firsts.new reach.new places.new result }
{
    if !has_type(image, index, z, s, NGON) {
        return n;
    }
    let span = span_of(image, index, s);
    let place = ranges::insert(firsts, reach, n, span.first, span.last);
    add_place(places, n, place, span.last - span.first + 1);
    n + 1
}

// Gathers the zone's face sections, in node order. It answers how many there are.
pub fn gather(
    image: &[u8],
    index: &[u16],
    z: usize,
    firsts: &mut [u64],
    reach: &mut [u64],
    places: &mut [u64],
) -> usize
    requires accepted { Accepted image.now × Index image.now index.now }
    requires in_bounds { (2048 ≤ length firsts.old) × (2048 ≤ length reach.old) × (2049 ≤ length places.old) }
    ensures { Ranges (tree_of image.now) z (node_count image.now) firsts.new reach.new places.new result }
{
    places[0] = 0;
    let mut n: usize = 0;
    for i in 0..labels::node_count(image) {
        n = add_section(image, index, z, i, firsts, reach, places, n);
    }
    n
}
