// Section entries as structs.
ghost use Rattle.std.specs.Prelude.{◌≡◌, length};
ghost use Rattle.model.specs.Answers.{count_tells};
ghost use Rattle.model.specs.Sections.{sections_answer, sections_memory};

use super::answers::{answered_count, sections_answer};
use model::{Rejection, Section};
use zone_sections::entry_after;

// The section entries of a zone: validation's rejection first, then rule 40, then 46; the entries are written to the front of `out` in node order,
// their count is answered, and the rest of `out` stays. A rejection leaves `out` as it was.
pub fn list_sections(out: &mut [Section], image: &[u8], zone: u64) -> Result<u64, Rejection>
    ensures { (count_tells result ≡ sections_answer image.now zone (length out.old))
        × (out.new ≡ sections_memory image.now zone out.old) }
{
    let mut index: [u16; 16384] = [0; 16384];
    let answer = sections_answer(image, &mut index, zone, out.len());
    let n = answered_count(answer);
    let mut at = zone;
    for i in 0..n {
        let e = entry_after(image, &index, zone, at);
        at = e.node;
        out[i] = e;
    }
    answer
}
