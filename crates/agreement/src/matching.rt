// The uses of a zone's faces, one after the other: each is matched with a parent of its face that is not matched yet.
ghost use Rattle.std.specs.Prelude.{◌≡◌, true, List, ℕ, ◌+◌, ◌≤◌, ◌<◌, length};
ghost use Rattle.model.specs.Bytes.{magnitude};
ghost use Rattle.model.specs.Corner.{number_at};
ghost use Rattle.model.specs.Image.{tree_of, node_count};
ghost use Rattle.model.specs.Elements.{element_count, face_of, section_with_face, parents_of};
ghost use Rattle.rows.specs.Rows.{Numbers};
ghost use Rattle.index.specs.Index.{Index};
ghost use Rattle.face_uses.specs.Uses.{Tables, FoundFor};
ghost use Rattle.face_parents.specs.Parents.{ParentRow};
ghost use Rattle.agreement.specs.Arrays.{Arrays};
ghost use Rattle.agreement.specs.Matching.{Matched, with_user, users_on};

use super::arrays::array_at;
use super::cells::{cell_at, first_cell};
use face_places::zone_sections::span_of;
use face_uses::cells::{cell_offsets, references_of};
use face_uses::uses::{Faces, entry_of, place_of};
use rows::Row;
use usage_bytes::parent_marks::match_parent;

// Matches the use by a cell of the face of reference k of a row, which entry j holds; `array` has the parents of its section. False where neither parent
// can be matched with it; true where the section has no parents.
fn match_entry(
    image: &[u8],
    faces: Faces,
    row: Row,
    k: usize,
    firsts: &[u64],
    reach: &[u64],
    places: &[u64],
    j: usize,
    array: Row,
    cell: u64,
    out: &mut [u8],
) -> bool
    requires numbers { Numbers image.now row.at row.width row.n × (k < row.n) }
    requires tables { Tables image.now faces firsts.now reach.now places.now (length out.old) }
    requires found_for { FoundFor image.now row k firsts.now reach.now faces.count (Some j) }
    requires parent_row { ParentRow image.now
        (parents_of (tree_of image.now) (section_with_face (tree_of image.now) faces.zone (magnitude row.width (number_at image.now row.at row.width k))))
        (element_count (tree_of image.now) (section_with_face (tree_of image.now) faces.zone (magnitude row.width (number_at image.now row.at row.width k))))
        array }
    ensures { (left : ℕ → List ℕ) → Matched image.now faces.zone
        (with_user (magnitude row.width (number_at image.now row.at row.width k)) cell left) left out.old result out.new }
{
    if array.n == 0 {
        return true;
    }
    let f = rows::magnitude_at(image, row, k);
    let d = (f - firsts[j]) as usize;
    let p = place_of(firsts, places, j, f);
    let first = rows::number_at(image, array, d) == cell;
    let second = rows::number_at(image, array, array.n / 2 + d) == cell;
    match_parent(out, p, first, second)
}

// Matches the uses of the entries of node s, where it is a cell section of the zone; false at the first that cannot be matched.
fn match_entries(
    image: &[u8],
    index: &[u16],
    faces: Faces,
    s: usize,
    firsts: &[u64],
    reach: &[u64],
    places: &[u64],
    levels: &[u32],
    arrays: &[u16],
    out: &mut [u8],
) -> bool
    requires index { (Index image.now index.now × (s < node_count image.now)) × (2048 ≤ length levels.now) }
    requires tables { Tables image.now faces firsts.now reach.now places.now (length out.old) }
    requires arrays { Arrays (tree_of image.now) faces.zone (node_count image.now) faces.count firsts.now arrays.now }
    ensures { Matched image.now faces.zone (users_on (tree_of image.now) faces.zone s)
        (users_on (tree_of image.now) faces.zone (s + 1)) out.old result out.new }
{
    let row = references_of(image, index, faces.zone, s);
    if row.n == 0 {
        return true;
    }
    let span = span_of(image, index, s);
    let offsets = cell_offsets(image, index, s, span);
    let mut cell = first_cell(image, offsets);
    let mut guesses: [usize; 9] = [0; 9];
    let mut last: usize = 2048;
    let mut array = Row {
        at: 0,
        width: 4,
        n: 0,
    };
    for k in 0..row.n {
        cell = cell_at(image, offsets, row.n, k, cell);
        let j = entry_of(
            image,
            faces,
            row,
            k,
            firsts,
            reach,
            levels,
            &mut guesses,
            last,
        )
        .unwrap();
        array = array_at(image, arrays, j, last, array);
        let element = span.first + cell.place as u64;
        if !match_entry(
            image, faces, row, k, firsts, reach, places, j, array, element, out,
        ) {
            return false;
        }
        last = j;
    }
    true
}

// Matches the uses of all references of the zone's cells, in node and entry order.
pub fn match_nodes(
    image: &[u8],
    index: &[u16],
    faces: Faces,
    firsts: &[u64],
    reach: &[u64],
    places: &[u64],
    levels: &[u32],
    arrays: &[u16],
    out: &mut [u8],
) -> bool
    requires index { Index image.now index.now × (2048 ≤ length levels.now) }
    requires tables { Tables image.now faces firsts.now reach.now places.now (length out.old) }
    requires arrays { Arrays (tree_of image.now) faces.zone (node_count image.now) faces.count firsts.now arrays.now }
    ensures { Matched image.now faces.zone (users_on (tree_of image.now) faces.zone 0)
        (users_on (tree_of image.now) faces.zone (node_count image.now)) out.old result out.new }
{
    for i in 0..labels::node_count(image) {
        if !match_entries(
            image, index, faces, i, firsts, reach, places, levels, arrays, out,
        ) {
            return false;
        }
    }
    true
}
