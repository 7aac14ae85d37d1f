// Where an element's corners stand in its section's connectivity.
ghost use Rattle.std.specs.Prelude.{◌≡◌, ◌≤◌, ◌<◌, ◌^◌, T, true, IfOk};
ghost use Rattle.words.specs.Width.{is_width};
ghost use Rattle.model.specs.Answers.{tells};
ghost use Rattle.model.specs.Corner.{inside};
ghost use Rattle.corners.specs.Spans.{SpanIn, SpanHeld, SpanInside, connectivity_of, fixed_span, range_between, offset_span, mixed_span, span_of, span_answer};

use element_types::{MIXED, fits_length, nodes_per, of_any_size};
use model::{Rejection, Section};
use rows::{Row, half_of, inside, number_at};

// Numbers of a connectivity: from `start` on and before `end`, counted from 0.
#[derive(Clone, Copy)]
pub struct Span {
    pub start: u64,
    pub end: u64,
}

// A section's connectivity in the image.
#[inline(always)]
pub fn connectivity_of(section: Section) -> Row
    ensures { result ≡ connectivity_of section }
{
    Row {
        at: section.connectivity_at as usize,
        width: section.connectivity_width as usize,
        n: section.connectivity_length as usize,
    }
}

// The k-th element of a type with `nodes` per element, in a connectivity of `length` numbers.
fn fixed_span(k: u64, nodes: u64, length: u64) -> Option<Span>
    requires { (nodes ≤ 27) × (length < 2 ^ 62) }
    ensures { (result ≡ fixed_span k nodes length) × SpanIn length result }
{
    let start = k.checked_mul(nodes)?;
    let end = start.checked_add(nodes)?;
    if nodes == 0 || length < end {
        return None;
    }
    Some(Span { start, end })
}

// An element from a start offset to the next one, as their bits.
fn range_between(start: u64, end: u64, width: usize, length: u64) -> Option<Span>
    requires { T (is_width width) }
    ensures { (result ≡ range_between width start end length) × SpanIn length result }
{
    if half_of(width) <= end || end <= start || length < end {
        return None;
    }
    Some(Span { start, end })
}

// The k-th element by its start offsets, in a connectivity of `length` numbers.
fn offset_span(image: &[u8], at: u64, width: u64, k: u64, length: u64) -> Option<Span>
    ensures { (result ≡ offset_span image.now at width k length) × SpanIn length result }
{
    let n = k.checked_add(2)?;
    if !inside(image, at, width, n) {
        return None;
    }
    let offsets = Row {
        at: at as usize,
        width: width as usize,
        n: n as usize,
    };
    let start = number_at(image, offsets, k as usize);
    let end = number_at(image, offsets, k as usize + 1);
    range_between(start, end, offsets.width, length)
}

// The corners of the element that a span holds, in a section whose type has no number of nodes: if it is MIXED, the numbers behind the element's own type.
// `None` where the section is not MIXED or the own type does not fit.
fn behind_type(
    image: &[u8],
    element_type: u64,
    connectivity: Row,
    span: Option<Span>,
) -> Option<Span>
    requires { (inside image.now connectivity.at connectivity.width connectivity.n ≡ true) × SpanIn connectivity.n span }
    ensures { (result ≡ mixed_span image.now element_type connectivity.at connectivity.width span) × SpanIn connectivity.n result }
{
    if element_type != MIXED {
        return None;
    }
    let span = span?;
    let own_type = number_at(image, connectivity, span.start as usize);
    if !fits_length(own_type, span.end - span.start) {
        return None;
    }
    Some(Span {
        start: span.start + 1,
        end: span.end,
    })
}

// The corners of the k-th element of a section: all that rule 43 asks. MIXED is tested last, so that other types do not pay for it.
#[inline(always)]
fn element_span(image: &[u8], section: Section, k: u64) -> Option<Span>
    ensures { (result ≡ span_of image.now section k) × SpanInside image.now section result }
{
    let at = section.connectivity_at;
    let width = section.connectivity_width;
    let length = section.connectivity_length;
    if !inside(image, at, width, length) {
        return None;
    }
    let section_type = section.element_type;
    let offsets_at = section.offsets_at;
    let offsets_width = section.offsets_width;
    if of_any_size(section_type) {
        return offset_span(image, offsets_at, offsets_width, k, length);
    }
    let nodes = nodes_per(section_type);
    if 0 < nodes {
        return fixed_span(k, nodes, length);
    }
    let found = offset_span(image, offsets_at, offsets_width, k, length);
    behind_type(image, section_type, connectivity_of(section), found)
}

// The corners of an element of a section; 41, then 43. It is compiled into each of its callers: a call would make each read take longer.
#[inline(always)]
pub fn readable_span(image: &[u8], section: Section, element: u64) -> Result<Span, Rejection>
    ensures answers { tells (λ s. s) result ≡ span_answer image.now section element }
    ensures held { IfOk result (SpanHeld image.now section) }
{
    let first = section.first;
    if element < first || section.last < element {
        return Err(Rejection::at(41, 0));
    }
    let k = element - first;
    element_span(image, section, k).ok_or(Rejection::at(43, 0))
}
