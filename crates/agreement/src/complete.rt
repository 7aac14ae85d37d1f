// Whether each parent of a zone's faces is matched, after all uses.
ghost use Rattle.std.specs.Prelude.{◌≡◌, [], ℕ, ◌+◌, ◌*◌, ◌≤◌, ◌<◌, length};
ghost use Rattle.model.specs.Lists.{every_from, sum_before};
ghost use Rattle.model.specs.Image.{tree_of, node_count};
ghost use Rattle.model.specs.Given.{Accepted};
ghost use Rattle.model.specs.FaceUsage.{faces_in, face_count};
ghost use Rattle.model.specs.ParentElements.{section_agrees, all_agree};
ghost use Rattle.rows.specs.Rows.{Numbers};
ghost use Rattle.index.specs.Index.{Index};
ghost use Rattle.agreement.specs.Matching.{complete_at, Matching};

use element_types::NGON;
use face_parents::parents_row;
use face_places::zone_sections::{has_type, span_of};
use rows::Row;
use usage_bytes::parent_marks::is_complete;

// Are the parents of each of n faces matched? The row has the first parents, then the second ones; the faces' bytes begin at `place`.
fn faces_complete(image: &[u8], row: Row, n: usize, place: usize, out: &[u8]) -> bool
    requires { Numbers image.now row.at row.width row.n × ((row.n ≡ n * 2) × (place + n ≤ length out.now)) }
    ensures { result ≡ every_from (complete_at image.now row n place out.now) n 0 }
{
    (0..n).all(|d| is_complete(out[place + d], rows::number_at(image, row, n + d) == 0))
}

// The faces that node s brings to zone z.
fn faces_of(image: &[u8], index: &[u16], z: usize, s: usize) -> usize
    requires { Accepted image.now × (Index image.now index.now × (s < node_count image.now)) }
    ensures { result ≡ faces_in (tree_of image.now) z s }
{
    if !has_type(image, index, z, s, NGON) {
        return 0;
    }
    let span = span_of(image, index, s);
    (span.last - span.first + 1) as usize
}

// Do the n faces of node s agree with the zone's cells? Their bytes begin at `place`.
fn section_agrees(
    image: &[u8],
    index: &[u16],
    z: usize,
    s: usize,
    n: usize,
    place: usize,
    out: &[u8],
) -> bool
    requires accepted { Accepted image.now × (Index image.now index.now × (s < node_count image.now)) }
    requires n_value { (n ≡ faces_in (tree_of image.now) z s) × (place ≡ sum_before (faces_in (tree_of image.now) z) s) }
    requires z_in_bounds { (face_count (tree_of image.now) z ≤ length out.now) × Matching image.now z (λ (f : ℕ). []) out.now }
    ensures { result ≡ section_agrees (tree_of image.now) z s }
{
    if n == 0 {
        return true;
    }
    let row = parents_row(image, sids::parents_of(image, index, s, NGON));
    if row.n == 0 {
        return true;
    }
    faces_complete(image, row, n, place, out)
}

// Do all faces whose sections have parents agree with the zone's cells?
pub fn zone_complete(image: &[u8], index: &[u16], z: usize, out: &[u8]) -> bool
    requires accepted { Accepted image.now × Index image.now index.now }
    requires z_in_bounds { (face_count (tree_of image.now) z ≤ length out.now) × Matching image.now z (λ (f : ℕ). []) out.now }
    ensures { result ≡ all_agree (tree_of image.now) z }
{
    let mut place: usize = 0;
    for i in 0..labels::node_count(image) {
        let n = faces_of(image, index, z, i);
        if !section_agrees(image, index, z, i, n, place, out) {
            return false;
        }
        place += n;
    }
    true
}
