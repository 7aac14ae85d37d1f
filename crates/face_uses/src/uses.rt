// The references of the zone's cells, one after the other in node and entry order.
ghost use Rattle.std.specs.Prelude.{◌≡◌, true, ◌+◌, ◌-◌, ◌≤◌, ◌<◌, length, get_or};
ghost use Rattle.model.specs.Bytes.{magnitude};
ghost use Rattle.model.specs.Corner.{number_at};
ghost use Rattle.model.specs.Image.{tree_of, node_count};
ghost use Rattle.model.specs.Elements.{face_of};
ghost use Rattle.model.specs.FaceUsage.{face_count, uses_in, use_entries, use_nodes};
ghost use Rattle.rows.specs.Rows.{Numbers};
ghost use Rattle.ranges.specs.Tables.{Ordered};
ghost use Rattle.ranges.specs.SearchTree.{Built};
ghost use Rattle.index.specs.Index.{Index};
ghost use Rattle.face_uses.specs.Uses.{Tables, FoundFor, UsedAt, Used};

use super::cells::{element_holding, references_of};
use model::Rejection;
use ranges::search_tree::SearchTree;
use ranges::{entry_holds, find};
use references::guess_eight;
use rows::{Row, is_negative, magnitude_at};
use usage_bytes::use_face;

// The faces of a zone in the tables: how many entries there are, and the tree by which they are guessed.
#[derive(Clone, Copy)]
pub struct Faces {
    pub zone: usize,
    pub count: usize,
    pub tree: SearchTree,
}

// The place of face f, which entry j holds.
pub fn place_of(firsts: &[u64], places: &[u64], j: usize, f: u64) -> usize
    requires j_in_bounds { (j < length firsts.now) × (j < length places.now) }
    requires j_bound { (get_or firsts.now j 0 ≤ f) × (get_or places.now j 0 + (f - get_or firsts.now j 0) < 18446744073709551616) }
    ensures { result ≡ get_or places.now j 0 + (f - get_or firsts.now j 0) }
{
    (places[j] + (f - firsts[j])) as usize
}

// Guesses the entries of the eight references of a row from `start` on, where the row has all eight. The ninth number tells which references they are of.
fn guess_block(
    image: &[u8],
    tree: SearchTree,
    row: Row,
    start: usize,
    levels: &[u32],
    guesses: &mut [usize],
)
    requires numbers { Numbers image.now row.at row.width row.n × (start < row.n) }
    requires built { (Built tree × (2048 ≤ length levels.now)) × (9 ≤ length guesses.old) }
{
    if row.n - start < 8 {
        return;
    }
    guess_eight(image, row, start, levels, tree, guesses);
    guesses[8] = start + 1;
}

// The entry that holds the face of reference k of a row, where one does: `last`, that of the reference before, is asked first, then the one guessed.
pub fn entry_of(
    image: &[u8],
    faces: Faces,
    row: Row,
    k: usize,
    firsts: &[u64],
    reach: &[u64],
    levels: &[u32],
    guesses: &mut [usize],
    last: usize,
) -> Option<usize>
    requires numbers { Numbers image.now row.at row.width row.n × (k < row.n) }
    requires k_bound { magnitude row.width (number_at image.now row.at row.width k) < 9223372036854775808 }
    requires ordered { Ordered firsts.now reach.now faces.count }
    requires built { (Built faces.tree × (2048 ≤ length levels.now)) × (9 ≤ length guesses.old) }
    ensures { FoundFor image.now row k firsts.now reach.now faces.count result }
{
    let count = faces.count;
    let f = magnitude_at(image, row, k);
    if entry_holds(firsts, reach, count, f, last) {
        return Some(last);
    }
    let start = k - k % 8;
    if guesses[8] != start + 1 {
        guess_block(image, faces.tree, row, start, levels, guesses);
    }
    find(firsts, reach, count, guesses[k % 8], f)
}

// Uses the face of reference k of a row, which entry j holds. It answers whether that sign was not used before.
fn use_entry(
    image: &[u8],
    faces: Faces,
    row: Row,
    k: usize,
    firsts: &[u64],
    reach: &[u64],
    places: &[u64],
    j: usize,
    out: &mut [u8],
) -> bool
    requires numbers { Numbers image.now row.at row.width row.n × (k < row.n) }
    requires tables { Tables image.now faces firsts.now reach.now places.now (length out.old) }
    requires found_for { FoundFor image.now row k firsts.now reach.now faces.count (Some j) }
    ensures { UsedAt (tree_of image.now) faces.zone row.width (number_at image.now row.at row.width k)
        out.old result out.new }
{
    let f = magnitude_at(image, row, k);
    let p = place_of(firsts, places, j, f);
    use_face(out, p, is_negative(image, row, k))
}

// Uses the faces of the references of node s, where it is a cell section of the zone; 45 at the first that is used twice with one sign.
fn use_entries(
    image: &[u8],
    index: &[u16],
    faces: Faces,
    s: usize,
    firsts: &[u64],
    reach: &[u64],
    places: &[u64],
    levels: &[u32],
    out: &mut [u8],
) -> Result<(), Rejection>
    requires index { (Index image.now index.now × (s < node_count image.now)) × (2048 ≤ length levels.now) }
    requires tables { Tables image.now faces firsts.now reach.now places.now (length out.old) }
    ensures { Used (face_count (tree_of image.now) faces.zone)
        (use_entries (tree_of image.now) s (uses_in (tree_of image.now) faces.zone s) 0 out.old)
        out.old result out.new }
{
    let row = references_of(image, index, faces.zone, s);
    let mut guesses: [usize; 9] = [0; 9];
    let mut last: usize = 0;
    for k in 0..row.n {
        let j = entry_of(
            image,
            faces,
            row,
            k,
            firsts,
            reach,
            levels,
            &mut guesses,
            last,
        )
        .unwrap();
        if !use_entry(image, faces, row, k, firsts, reach, places, j, out) {
            let e = element_holding(image, index, s, k);
            return Err(Rejection::repeated(s as u64, e));
        }
        last = j;
    }
    Ok(())
}

// Uses the faces of all references of the zone's cells, in node and entry order.
pub fn use_nodes(
    image: &[u8],
    index: &[u16],
    faces: Faces,
    firsts: &[u64],
    reach: &[u64],
    places: &[u64],
    levels: &[u32],
    out: &mut [u8],
) -> Result<(), Rejection>
    requires index { Index image.now index.now × (2048 ≤ length levels.now) }
    requires tables { Tables image.now faces firsts.now reach.now places.now (length out.old) }
    ensures { Used (face_count (tree_of image.now) faces.zone)
        (use_nodes (tree_of image.now) faces.zone (node_count image.now) 0 out.old)
        out.old result out.new }
{
    for i in 0..labels::node_count(image) {
        use_entries(image, index, faces, i, firsts, reach, places, levels, out)?;
    }
    Ok(())
}
