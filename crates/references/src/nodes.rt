// Rule 34: the node references of a section.
ghost use Rattle.std.specs.Prelude.{◌≡◌, cond, ◌&&◌, ◌+◌, ◌<◌};
ghost use Rattle.model.specs.Image.{tree_of, parent};
ghost use Rattle.model.specs.Given.{Sound};
ghost use Rattle.model.specs.Values.{vertex_size, connectivity_of};
ghost use Rattle.model.specs.Elements.{MIXED, NFACE, element_type_of, reference_check};
ghost use Rattle.model.specs.Answers.{stage_tells};
ghost use Rattle.rows.specs.Rows.{Numbers};
ghost use Rattle.references.specs.Arrays.{is_within, FirstFailing};
ghost use Rattle.section_data.specs.Given.{RowOf, SectionContext};

use model::Rejection;
use rows::Row;

// Does number k of a row lie in 1 to limit?
pub fn is_within(image: &[u8], row: Row, limit: u64, k: usize) -> bool
    requires { Numbers image.now row.at row.width row.n × (k < row.n) }
    ensures { result ≡ is_within image.now row.at row.width limit k }
{
    let x = rows::number_at(image, row, k);
    if x < 1 {
        return false;
    }
    x <= limit
}

// Do numbers k and k + 1 of a row lie in 1 to limit?
fn two_within(image: &[u8], row: Row, limit: u64, k: usize) -> bool
    requires { Numbers image.now row.at row.width row.n × (k + 1 < row.n) }
    ensures { result
        ≡ (is_within image.now row.at row.width limit k && is_within image.now row.at row.width limit (k + 1)) }
{
    if !is_within(image, row, limit, k) {
        return false;
    }
    is_within(image, row, limit, k + 1)
}

// Of numbers k and k + 1 of a row, of which one lies outside 1 to limit, the first that does.
fn past_within(image: &[u8], row: Row, limit: u64, k: usize) -> usize
    requires { Numbers image.now row.at row.width row.n × (k < row.n) }
    ensures { result ≡ cond (is_within image.now row.at row.width limit k) (k + 1) k }
{
    if is_within(image, row, limit, k) {
        return k + 1;
    }
    k
}

// The first number of a row that lies outside 1 to limit. Two at a time, and a function of its own, which begins on a cache line in the archive: there the
// loop takes as long whatever code stands before it.
#[inline(never)]
fn first_no_node(image: &[u8], row: Row, limit: u64) -> Option<usize>
    requires { Numbers image.now row.at row.width row.n }
    ensures { FirstFailing (is_within image.now row.at row.width limit) row.n result }
{
    let n = row.n;
    for pair in 0..n / 2 {
        let k = 2 * pair;
        if !two_within(image, row, limit, k) {
            return Some(past_within(image, row, limit, k));
        }
    }
    if n % 2 == 0 {
        return None;
    }
    if is_within(image, row, limit, n - 1) {
        return None;
    }
    Some(n - 1)
}

// VertexSize of the zone of section s.
pub fn vertex_size(image: &[u8], s: usize) -> u64
    requires { Sound image.now × SectionContext image.now s }
    ensures { result ≡ vertex_size (tree_of image.now) (parent (tree_of image.now) s) 0 }
{
    types::whole(image, records::parent_of(image, s), 0)
}

// Rule 34 at section s, whose references, those of the row, are all nodes: it is no MIXED section and none of cells.
pub fn node_stage(image: &[u8], s: usize, row: Row) -> Result<(), Rejection>
    requires sound { Sound image.now × SectionContext image.now s }
    requires row_of { RowOf image.now (connectivity_of (tree_of image.now) s) row }
    requires fact { (element_type_of (tree_of image.now) s ≡ MIXED → ⊥) × (element_type_of (tree_of image.now) s ≡ NFACE → ⊥) }
    ensures { stage_tells result ≡ reference_check (tree_of image.now) s }
{
    let vertices = vertex_size(image, s);
    let Some(k) = first_no_node(image, row, vertices) else {
        return Ok(());
    };
    Err(Rejection::at_entry(34, s as u64, k as u64 + 1))
}
