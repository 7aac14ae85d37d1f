// All corners of an element in one call: what the corner reader checks at each corner is checked once.
ghost use Rattle.std.specs.Prelude.{◌≡◌, ◌+◌, ◌≤◌, length};
ghost use Rattle.model.specs.Lists.{over};
ghost use Rattle.rows.specs.Rows.{Numbers};
ghost use Rattle.model.specs.ElementCorners.{element_corners_answer, element_corners_memory};
ghost use Rattle.model.specs.Answers.{count_tells};
ghost use Rattle.corners.specs.Spans.{SpanHeld, row_values, corners_in, corners_in_memory};

use super::spans::{Span, connectivity_of, readable_span};
use model::{Rejection, Section};
use rows::{Row, signed_number_at};

// Writes n numbers of a row, WIDTH bytes each, from number `start` on, in front of lent memory; the rest stays.
fn put_row<const WIDTH: usize>(image: &[u8], row: Row, start: usize, n: usize, out: &mut [i64])
    requires numbers { Numbers image.now row.at row.width row.n × ((start + n ≤ row.n) × (n ≤ length out.old)) }
    requires width { row.width ≡ WIDTH }
    ensures { out.new ≡ over out.old (row_values image.now row start n) }
{
    let row = Row {
        width: WIDTH,
        ..row
    };
    for (k, x) in out[..n].iter_mut().enumerate() {
        *x = signed_number_at(image, row, start + k);
    }
}

// The same for either width: each has a loop of its own.
fn put_numbers(image: &[u8], row: Row, start: usize, n: usize, out: &mut [i64])
    requires { Numbers image.now row.at row.width row.n × ((start + n ≤ row.n) × (n ≤ length out.old)) }
    ensures { out.new ≡ over out.old (row_values image.now row start n) }
{
    if row.width == 4 {
        put_row::<4>(image, row, start, n, out);
    } else {
        put_row::<8>(image, row, start, n, out);
    }
}

// The corners of the element that stands at a span of the connectivity.
fn corners_in(image: &[u8], section: Section, span: Span, out: &mut [i64]) -> Result<u64, Rejection>
    requires { SpanHeld image.now section span }
    ensures { (count_tells result ≡ corners_in span.start span.end (length out.old))
        × (out.new ≡ corners_in_memory image.now section span.start span.end out.old) }
{
    let n = span.end - span.start;
    if (out.len() as u64) < n {
        return Err(Rejection::at(46, 0));
    }
    let connectivity = connectivity_of(section);
    put_numbers(image, connectivity, span.start as usize, n as usize, out);
    Ok(n)
}

// Writes all corners of an element in front of `out` and answers how many they are; 41, then 43, then 46. A refusal leaves `out` as it was.
pub fn element_corners(
    image: &[u8],
    section: Section,
    element: u64,
    out: &mut [i64],
) -> Result<u64, Rejection>
    ensures result_value { count_tells result ≡ element_corners_answer image.now section element (length out.old) }
    ensures out_after { out.new ≡ element_corners_memory image.now section element out.old }
{
    let span = readable_span(image, section, element)?;
    corners_in(image, section, span, out)
}
