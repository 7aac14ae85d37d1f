// Rules 35 to 37: the face references of a section.
ghost use Rattle.std.specs.Prelude.{◌≡◌, true, ◌+◌, ◌≤◌, ◌<◌, length};
ghost use Rattle.model.specs.Image.{tree_of, node_count};
ghost use Rattle.model.specs.Given.{Sound};
ghost use Rattle.model.specs.Values.{connectivity_of};
ghost use Rattle.model.specs.Elements.{NFACE, element_type_of, is_face, reference_check};
ghost use Rattle.model.specs.Answers.{stage_tells};
ghost use Rattle.index.specs.Index.{Index};
ghost use Rattle.rows.specs.Rows.{Numbers};
ghost use Rattle.ranges.specs.SearchTree.{Built};
ghost use Rattle.section_data.specs.Passing.{Passed};
ghost use Rattle.references.specs.Arrays.{is_known, known_at, FirstFailing};
ghost use Rattle.section_data.specs.Given.{RowOf, SectionContext};
ghost use Rattle.references.specs.Arrays.{refers_face};
ghost use Rattle.section_data.specs.Ranges.{Faces};
ghost use Rattle.references.specs.Groups.{face_rule};

use model::Rejection;
use ranges::search_tree::{Four, SearchTree};
use ranges::{Interval, search_tree};
use rows::Row;
use section_data::is_element;

// Does one of two intervals hold f?
fn is_known(last: Interval, before: Interval, f: u64) -> bool
    requires { (last.low + last.size ≤ 4294967296) × (before.low + before.size ≤ 4294967296) }
    ensures { result ≡ is_known last before f }
{
    ranges::within(last, f) || ranges::within(before, f)
}

// The first number of a row, from k on, whose magnitude is in neither of two intervals; how many there are where each is, since the scan goes on from the answer.
fn first_outside(image: &[u8], row: Row, k: usize, last: Interval, before: Interval) -> usize
    requires numbers { Numbers image.now row.at row.width row.n × (k ≤ row.n) }
    requires size_bound { (last.low + last.size ≤ 4294967296) × (before.low + before.size ≤ 4294967296) }
    ensures { Passed (known_at image.now row last before) row.n k result }
{
    for j in k..row.n {
        if !is_known(last, before, rows::magnitude_at(image, row, j)) {
            return j;
        }
    }
    row.n
}

// Does an entry tell that number k of a row refers to a face of zone z?
fn entry_refers(
    image: &[u8],
    z: usize,
    row: Row,
    k: usize,
    firsts: &[u64],
    reach: &[u64],
    count: usize,
    entry: usize,
) -> bool
    requires sound { Sound image.now × (z < node_count image.now) }
    requires numbers { (Numbers image.now row.at row.width row.n × (k < row.n)) × Faces (tree_of image.now) firsts.now reach.now count }
    ensures { result ≡ true → refers_face (tree_of image.now) z image.now row.at row.width k ≡ true }
{
    let f = rows::magnitude_at(image, row, k);
    if types::MAX_NUMBER < f {
        return false;
    }
    ranges::entry_holds(firsts, reach, count, ranges::key(z, f), entry)
}

// Do eight entries tell that numbers k to k + 7 of a row refer to faces of zone z?
fn eight_refer(
    image: &[u8],
    z: usize,
    row: Row,
    k: usize,
    firsts: &[u64],
    reach: &[u64],
    count: usize,
    entries: &[usize],
) -> bool
    requires sound { Sound image.now × (z < node_count image.now) }
    requires numbers { (Numbers image.now row.at row.width row.n × (k + 8 ≤ row.n)) × Faces (tree_of image.now) firsts.now reach.now count }
    requires in_bounds { 8 ≤ length entries.now }
    ensures { result ≡ true → Passed (refers_face (tree_of image.now) z image.now row.at row.width) row.n k (k + 8) }
{
    for i in 0..8 {
        if !entry_refers(image, z, row, k + i, firsts, reach, count, entries[i]) {
            return false;
        }
    }
    true
}

// The magnitudes of numbers k to k + 3 of a row, as a search tree takes them.
fn four_at(image: &[u8], row: Row, k: usize) -> Four
    requires { Numbers image.now row.at row.width row.n × (k + 4 ≤ row.n) }
{
    let a = rows::magnitude_at(image, row, k) % 4294967296;
    let b = rows::magnitude_at(image, row, k + 1) % 4294967296;
    let c = rows::magnitude_at(image, row, k + 2) % 4294967296;
    let d = rows::magnitude_at(image, row, k + 3) % 4294967296;
    Four {
        a: a as u32,
        b: b as u32,
        c: c as u32,
        d: d as u32,
    }
}

// Guesses the entries of numbers k to k + 7 of a row.
pub fn guess_eight(
    image: &[u8],
    row: Row,
    k: usize,
    levels: &[u32],
    tree: SearchTree,
    entries: &mut [usize],
)
    requires numbers { Numbers image.now row.at row.width row.n × (k + 8 ≤ row.n) }
    requires built { (Built tree × (2048 ≤ length levels.now)) × (8 ≤ length entries.old) }
{
    search_tree::guess(
        levels,
        tree,
        four_at(image, row, k),
        four_at(image, row, k + 4),
        entries,
    );
}

// Where numbers of a row are looked up by guesses: from j to the answer. None where eight or more from k on lay in the intervals of the last two,
// else no more than 256.
fn jumps_to(k: usize, j: usize, n: usize) -> usize
    requires { (k ≤ j) × (j ≤ n) }
    ensures { (j ≤ result) × (result ≤ n) }
{
    if 8 <= j - k {
        return j;
    }
    if n - j <= 256 {
        return n;
    }
    j + 256
}

// How far numbers k to `end` of a row refer to faces of zone z, as guesses tell, eight at a time.
fn guessed_to(
    image: &[u8],
    z: usize,
    row: Row,
    k: usize,
    end: usize,
    firsts: &[u64],
    reach: &[u64],
    count: usize,
    levels: &[u32],
    tree: SearchTree,
) -> usize
    requires sound { (Sound image.now × (z < node_count image.now)) × ((k ≤ end) × (end ≤ row.n)) }
    requires numbers { Numbers image.now row.at row.width row.n × Faces (tree_of image.now) firsts.now reach.now count }
    requires built { Built tree × (2048 ≤ length levels.now) }
    ensures { Passed (refers_face (tree_of image.now) z image.now row.at row.width) row.n k result }
{
    let mut entries: [usize; 8] = [0; 8];
    let whole = end - (end - k) % 8;
    for j in (k..whole).step_by(8) {
        guess_eight(image, row, j, levels, tree, &mut entries);
        if !eight_refer(image, z, row, j, firsts, reach, count, &entries) {
            return j;
        }
    }
    whole
}

// The first number of a row that refers to no face of zone z. The numbers around the last two that were looked up are known; where numbers jump, their
// entries are guessed.
fn first_no_face(
    image: &[u8],
    z: usize,
    row: Row,
    firsts: &[u64],
    reach: &[u64],
    count: usize,
    levels: &[u32],
    tree: SearchTree,
) -> Option<usize>
    requires sound { Sound image.now × (z < node_count image.now) }
    requires numbers { Numbers image.now row.at row.width row.n × Faces (tree_of image.now) firsts.now reach.now count }
    requires built { Built tree × (2048 ≤ length levels.now) }
    ensures { FirstFailing (refers_face (tree_of image.now) z image.now row.at row.width) row.n result }
{
    let n = row.n;
    let mut last = Interval { low: 0, size: 0 };
    let mut k: usize = 0;
    // `while`: each round goes on where the guesses ended
    while k < n {
        let f = rows::magnitude_at(image, row, k);
        if types::MAX_NUMBER < f {
            return Some(k);
        }
        let Some(next) = ranges::interval_around(firsts, reach, count, z, f) else {
            return Some(k);
        };
        let j = first_outside(image, row, k + 1, next, last);
        let end = jumps_to(k, j, n);
        k = guessed_to(image, z, row, j, end, firsts, reach, count, levels, tree);
        last = next;
    }
    None
}

// The first reference of section s, one of those of the row, that is no face of its zone. A tree is made where it is worth the work.
fn first_broken(
    image: &[u8],
    s: usize,
    row: Row,
    firsts: &[u64],
    reach: &[u64],
    faces: usize,
    levels: &mut [u32],
) -> Option<usize>
    requires sound { Sound image.now × SectionContext image.now s }
    requires row_of { RowOf image.now (connectivity_of (tree_of image.now) s) row }
    requires faces { Faces (tree_of image.now) firsts.now reach.now faces × (2048 ≤ length levels.old) }
    ensures { FirstFailing (is_face (tree_of image.now) s) row.n result }
{
    let z = records::parent_of(image, s);
    if row.n < faces / 4 {
        let tree = SearchTree { from: 0, lowest: 0 };
        return first_no_face(image, z, row, firsts, reach, faces, levels, tree);
    }
    let tree = search_tree::build(firsts, faces, z, levels);
    first_no_face(image, z, row, firsts, reach, faces, levels, tree)
}

// The rule that a reference to f breaks, which is no face of zone z: 35 for zero, 36 for no element of the zone, 37 for one.
fn face_rule(image: &[u8], index: &[u16], z: usize, f: u64) -> u64
    requires { Index image.now index.now }
    ensures { result ≡ face_rule (tree_of image.now) z f }
{
    if f == 0 {
        return 35;
    }
    if is_element(image, index, z, f) {
        return 37;
    }
    36
}

// Rules 35 to 37 at section s of cells; its references are the row. The first that is no face decides.
pub fn face_stage(
    image: &[u8],
    index: &[u16],
    s: usize,
    row: Row,
    firsts: &[u64],
    reach: &[u64],
    faces: usize,
    levels: &mut [u32],
) -> Result<(), Rejection>
    requires index { Index image.now index.now × SectionContext image.now s }
    requires row_of { RowOf image.now (connectivity_of (tree_of image.now) s) row × (element_type_of (tree_of image.now) s ≡ NFACE) }
    requires faces { Faces (tree_of image.now) firsts.now reach.now faces × (2048 ≤ length levels.old) }
    ensures { stage_tells result ≡ reference_check (tree_of image.now) s }
{
    let Some(k) = first_broken(image, s, row, firsts, reach, faces, levels) else {
        return Ok(());
    };
    let f = rows::magnitude_at(image, row, k);
    let rule = face_rule(image, index, records::parent_of(image, s), f);
    Err(Rejection::at_entry(rule, s as u64, k as u64 + 1))
}
