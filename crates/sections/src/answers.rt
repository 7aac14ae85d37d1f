// What the calls for a zone's sections answer.
ghost use Rattle.std.specs.Prelude.{◌≡◌, length, ◌≤◌};
ghost use Rattle.model.specs.Rules.{passed, ◌gives◌};
ghost use Rattle.model.specs.Image.{tree_of};
ghost use Rattle.model.specs.Sections.{section_nodes, sections_answer};
ghost use Rattle.model.specs.Answers.{count_tells, stage_tells};
ghost use Rattle.model.specs.Validation.{image_check};
ghost use Rattle.index.specs.Index.{Index};
ghost use Rattle.sections.specs.Due.{zone_check, answered_count};

use model::Rejection;
use zone_sections::section_count;

// Rule 40, then 46 where the zone has more than `room` sections, else the count of its sections.
fn zone_answer(image: &[u8], index: &[u16], zone: u64, room: usize) -> Result<u64, Rejection>
    requires { Index image.now index.now }
    ensures { count_tells result ≡ (zone_check (tree_of image.now) zone room gives length (section_nodes (tree_of image.now) zone)) }
{
    if !index::is_zone(image, index, zone) {
        return Err(Rejection::at(40, 0));
    }
    let n = section_count(image, index, zone as usize);
    if room < n {
        return Err(Rejection::at(46, 0));
    }
    Ok(n as u64)
}

// The answer of the call where `stage` is what validation answers: its rejection, then rule 40, then 46, else the count of the zone's sections.
fn answer_after(
    stage: Result<(), Rejection>,
    image: &[u8],
    index: &[u16],
    zone: u64,
    room: usize,
) -> Result<u64, Rejection>
    requires { (stage_tells stage ≡ image_check image.now) × (stage_tells stage ≡ passed → Index image.now index.now) }
    ensures { count_tells result ≡ sections_answer image.now zone room }
{
    stage?;
    zone_answer(image, index, zone, room)
}

// The answer of the call: validation's rejection first, then rule 40, then 46 where the zone has more than `room` sections, else the count of its sections.
// The index is that of the image where validation accepts it.
pub fn sections_answer(
    image: &[u8],
    index: &mut [u16],
    zone: u64,
    room: usize,
) -> Result<u64, Rejection>
    requires { 16384 ≤ length index.old }
    ensures result_value { count_tells result ≡ sections_answer image.now zone room }
    ensures index { image_check image.now ≡ passed → Index image.now index.new }
{
    let stage = validation::image_stage(image, index);
    answer_after(stage, image, index, zone, room)
}

// How many entries an answer says are written; 0 where it is a rejection.
pub fn answered_count(answer: Result<u64, Rejection>) -> usize
    ensures { result ≡ answered_count answer }
{
    match answer {
        Ok(n) => n as usize,
        Err(_) => 0,
    }
}
