// Section entries as flat numbers, eleven to an entry.
ghost use Rattle.std.specs.Prelude.{◌≡◌, ◌*◌, ◌/◌, ◌≤◌, ◌<◌, length};
ghost use Rattle.model.specs.Lists.{over};
ghost use Rattle.model.specs.Image.{tree_of, node_count};
ghost use Rattle.model.specs.Rules.{passed};
ghost use Rattle.model.specs.Given.{Accepted};
ghost use Rattle.model.specs.Validation.{image_check};
ghost use Rattle.index.specs.Index.{Index};
ghost use Rattle.model.specs.Sections.{section_nodes, section_entries, all_numbers, sections_answer, section_numbers_memory};
ghost use Rattle.model.specs.Answers.{count_tells};

use super::answers::sections_answer;
use entries::{ENTRY_LENGTH, put_entry};
use model::Rejection;
use zone_sections::entry_after;

// Writes the entries of the zone's n sections to the front of `out`, in node order; the rest stays.
fn fill(image: &[u8], index: &[u16], zone: u64, n: usize, out: &mut [u64])
    requires index { Index image.now index.now }
    requires accepted { Accepted image.now × (zone < node_count image.now) }
    requires n_value { (n ≡ length (section_nodes (tree_of image.now) zone)) × (11 * n ≤ length out.old) }
    ensures { out.new ≡ over out.old (all_numbers (section_entries (tree_of image.now) zone)) }
{
    let mut at = zone;
    for k in 0..n {
        let e = entry_after(image, index, zone, at);
        at = e.node;
        put_entry(out, ENTRY_LENGTH * k, e);
    }
}

// Writes the entries that an answer tells of; a rejection leaves `out` as it was.
fn write_entries(
    answer: Result<u64, Rejection>,
    image: &[u8],
    index: &[u16],
    zone: u64,
    out: &mut [u64],
)
    requires answer_value { count_tells answer ≡ sections_answer image.now zone (length out.old / 11) }
    requires index { image_check image.now ≡ passed → Index image.now index.now }
    ensures { out.new ≡ section_numbers_memory image.now zone out.old }
{
    let Ok(n) = answer else {
        return;
    };
    fill(image, index, zone, n as usize, out);
}

// The section entries of a zone as flat numbers: validation's rejection first, then rule 40, then 46; eleven numbers an entry are written to the front
// of `out` in node order, the count of entries is answered, and the rest of `out` stays. A rejection leaves `out` as it was.
pub fn section_entries(image: &[u8], zone: u64, out: &mut [u64]) -> Result<u64, Rejection>
    ensures { (count_tells result ≡ sections_answer image.now zone (length out.old / 11))
        × (out.new ≡ section_numbers_memory image.now zone out.old) }
{
    let mut index: [u16; 16384] = [0; 16384];
    let answer = sections_answer(image, &mut index, zone, out.len() / ENTRY_LENGTH);
    write_entries(answer, image, &index, zone, out);
    answer
}
