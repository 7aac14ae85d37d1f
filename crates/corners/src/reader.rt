// The corner reader: no verdict first, nothing is assumed of the image or of the entry.
ghost use Rattle.std.specs.Prelude.{◌≡◌};
ghost use Rattle.model.specs.Answers.{corner_tells};
ghost use Rattle.model.specs.Reads.{CornerRead};
ghost use Rattle.corners.specs.Spans.{SpanHeld, corner_in};

use super::spans::{Span, connectivity_of, readable_span};
use model::{Rejection, Section};
use rows::signed_number_at;

// A corner, counted from 1, of the element that stands at a span of the connectivity.
fn corner_in(image: &[u8], section: Section, span: Span, corner: u64) -> Result<i64, Rejection>
    requires { SpanHeld image.now section span }
    ensures { corner_tells result ≡ corner_in image.now section span.start span.end corner }
{
    if corner < 1 || span.end - span.start < corner {
        return Err(Rejection::at(42, 0));
    }
    let k = span.start + (corner - 1);
    Ok(signed_number_at(image, connectivity_of(section), k as usize))
}

// The number stored at an element's corner; 41, then 43, then 42. The image stays as it is.
pub fn corner(image: &[u8], section: Section, element: u64, corner: u64) -> Result<i64, Rejection>
    ensures { CornerRead image.now section element corner result image.now }
{
    let span = readable_span(image, section, element)?;
    corner_in(image, section, span, corner)
}
