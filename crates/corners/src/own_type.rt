// An element's own type, asked for as the corner reader asks for corners: no verdict first, nothing is assumed of the image or of the entry.
ghost use Rattle.std.specs.Prelude.{◌≡◌};
ghost use Rattle.model.specs.OwnType.{own_type_answer};
ghost use Rattle.model.specs.Answers.{count_tells};

use super::spans::{connectivity_of, readable_span};
use element_types::MIXED;
use model::{Rejection, Section};
use rows::number_at;

// In a MIXED section the type that the element begins with, in others the section's; 41, then 43.
pub fn element_type(image: &[u8], section: Section, element: u64) -> Result<u64, Rejection>
    ensures { count_tells result ≡ own_type_answer image.now section element }
{
    let span = readable_span(image, section, element)?;
    let section_type = section.element_type;
    if section_type != MIXED {
        return Ok(section_type);
    }
    let connectivity = connectivity_of(section);
    Ok(number_at(image, connectivity, span.start as usize - 1))
}
