// The C interface: each call on numbers and slices, with no `requires`. An export answers the rule, 0 where there is none; the other numbers of its answer
// are 64-bit words in lent bytes, little-endian. Where these are too short it answers 46 and writes nothing at all. Exports of one shape stay apart: C calls
// each by its own name, with its own arguments, and each promises another answer.
#![tactic(auto)]

ghost use Rattle.std.specs.Prelude.{◌≡◌, ◌/◌, length};
ghost use Rattle.model.specs.Validation.{validation};
ghost use Rattle.model.specs.Sections.{sections_answer, section_numbers_memory};
ghost use Rattle.model.specs.FaceUsage.{usage_answer, usage_memory};
ghost use Rattle.model.specs.ParentElements.{parents_answer, agreement_answer, agreement_memory};
ghost use Rattle.model.specs.NameBytes.{name_bytes_answer};
ghost use Rattle.model.specs.Path.{path_answer, path_memory};
ghost use Rattle.model.specs.ArrayValue.{value_answer};
ghost use Rattle.model.specs.DataSize.{data_size_answer};
ghost use Rattle.model.specs.Exports.{validation_words, count_words, usage_words, parent_words, agreement_words, value_words, size_words};
ghost use Rattle.writer_model.specs.Exports.{StartExport, AddExport, FinishExport};
ghost use Rattle.writer_model.specs.Writer.{addition};
ghost use Rattle.model.specs.Exports.{export_rule, export_bytes, export_memory, CornerExport, ElementExport, TypeExport};

use answers::{
    agreement_answer, count_answer, parents_answer, put_answer, put_corner, put_count, size_answer,
    usage_answer, validation_answer, value_answer,
};

// How many words each answer has, of 8 bytes each.
const VALIDATION_WORDS: usize = 6;

const SECTIONS_WORDS: usize = 3;

const USAGE_WORDS: usize = 4;

const PARENTS_WORDS: usize = 4;

const AGREEMENT_WORDS: usize = 4;

const PATH_WORDS: usize = 3;

const NAMES_WORDS: usize = 3;

const VALUE_WORDS: usize = 4;

const SIZE_WORDS: usize = 6;

// Whether the image meets every rule. The answer, six words: node, entry, nodes validated, nodes skipped, zones, sections.
#[unsafe(no_mangle)]
pub extern "C" fn gongaurora_export_validate(image: &[u8], answer: &mut [u8]) -> u64
    ensures value { result ≡ export_rule 6 answer.old (validation image.now) }
    ensures answer_after { answer.new ≡ export_bytes answer.old (validation_words (validation image.now)) }
{
    if answer.len() < 8 * VALIDATION_WORDS {
        return 46; // no verdict is made
    }
    put_answer(
        answer,
        validation_answer(validation::validate(image)),
        VALIDATION_WORDS,
    )
}

// The number at an element's corner, of the bytes of a section entry: 8 bytes in front of `number` where the rule is 0; else they stay as they were.
// Rule 46 where the section has fewer bytes or `number` has no room, then the reader's.
#[unsafe(no_mangle)]
pub extern "C" fn gongaurora_export_read_corner(
    image: &[u8],
    section: &[u8],
    element: u64,
    corner: u64,
    number: &mut [u8],
) -> u64
    ensures { CornerExport image.now section.now element corner number.old
        result image.now section.now number.new }
{
    if section.len() < entries::ENTRY_BYTES {
        return 46;
    }
    if number.len() < 8 {
        return 46;
    }
    put_corner(
        corners::corner(image, entries::section_in(section), element, corner),
        number,
    )
}

// All corners of an element in front of `out`, of the numbers of a section entry; their count, 0 of a refusal, in front of `count`.
// Rule 46 where the section has fewer numbers or `count` has no room, and then nothing is written; then the reader's, which leave `out` as it was.
#[unsafe(no_mangle)]
pub extern "C" fn gongaurora_export_read_element(
    image: &[u8],
    section: &[u64],
    element: u64,
    out: &mut [i64],
    count: &mut [u8],
) -> u64
    ensures { ElementExport image.now section.now element out.old count.old
        result image.now section.now out.new count.new }
{
    if section.len() < entries::ENTRY_LENGTH {
        return 46;
    }
    if count.len() < 8 {
        return 46;
    }
    put_count(
        corners::element_corners(image, entries::section_at(section, 0), element, out),
        count,
    )
}

// An element's own type, of the numbers of a section entry: 8 bytes in front of `answer`, 0 of a refusal.
// Rule 46 where the section has fewer numbers or `answer` has no room, and then nothing is written; then the reader's.
#[unsafe(no_mangle)]
pub extern "C" fn gongaurora_export_element_type(
    image: &[u8],
    section: &[u64],
    element: u64,
    answer: &mut [u8],
) -> u64
    ensures { TypeExport image.now section.now element answer.old
        result image.now section.now answer.new }
{
    if section.len() < entries::ENTRY_LENGTH {
        return 46;
    }
    if answer.len() < 8 {
        return 46;
    }
    put_count(
        corners::element_type(image, entries::section_at(section, 0), element),
        answer,
    )
}

// The section entries of a zone as flat numbers in front of `out`. The answer, three words: node, entry, count of sections.
#[unsafe(no_mangle)]
pub extern "C" fn gongaurora_export_sections(
    image: &[u8],
    zone: u64,
    out: &mut [u64],
    answer: &mut [u8],
) -> u64
    ensures value { result ≡ export_rule 3 answer.old (sections_answer image.now zone (length out.old / 11)) }
    ensures answer_after { answer.new
        ≡ export_bytes answer.old (count_words (sections_answer image.now zone (length out.old / 11))) }
    ensures out_after { out.new
        ≡ export_memory 3 answer.old out.old (section_numbers_memory image.now zone out.old) }
{
    if answer.len() < 8 * SECTIONS_WORDS {
        return 46;
    }
    put_answer(
        answer,
        count_answer(sections::section_entries(image, zone, out)),
        SECTIONS_WORDS,
    )
}

// The usage of a zone's faces, a byte each, in front of `out`. The answer, four words: node, entry, element (of rule 45), count of faces.
#[unsafe(no_mangle)]
pub extern "C" fn gongaurora_export_face_usage(
    image: &[u8],
    zone: u64,
    out: &mut [u8],
    answer: &mut [u8],
) -> u64
    ensures value { result ≡ export_rule 4 answer.old (usage_answer image.now zone (length out.old)) }
    ensures answer_after { answer.new ≡ export_bytes answer.old (usage_words (usage_answer image.now zone (length out.old))) }
    ensures out_after { out.new ≡ export_memory 4 answer.old out.old (usage_memory image.now zone out.old) }
{
    if answer.len() < 8 * USAGE_WORDS {
        return 46;
    }
    put_answer(
        answer,
        usage_answer(faces::face_usage(image, zone, out)),
        USAGE_WORDS,
    )
}

// The parents of a face, as its section stores them. The answer, four words: node, entry, first, second.
#[unsafe(no_mangle)]
pub extern "C" fn gongaurora_export_parents(
    image: &[u8],
    zone: u64,
    face: u64,
    answer: &mut [u8],
) -> u64
    ensures value { result ≡ export_rule 4 answer.old (parents_answer image.now zone face) }
    ensures answer_after { answer.new ≡ export_bytes answer.old (parent_words (parents_answer image.now zone face)) }
{
    if answer.len() < 8 * PARENTS_WORDS {
        return 46;
    }
    put_answer(
        answer,
        parents_answer(faces::parents(image, zone, face)),
        PARENTS_WORDS,
    )
}

// Whether the parents that a zone's face sections store agree with its cells; the usage of its faces, a byte each, in front of `out`. The answer, four
// words: node, entry, element (of rule 45), then 1 where they agree and 0 where they do not.
#[unsafe(no_mangle)]
pub extern "C" fn gongaurora_export_parents_agree(
    image: &[u8],
    zone: u64,
    out: &mut [u8],
    answer: &mut [u8],
) -> u64
    ensures value { result ≡ export_rule 4 answer.old (agreement_answer image.now zone (length out.old)) }
    ensures answer_after { answer.new
        ≡ export_bytes answer.old (agreement_words (agreement_answer image.now zone (length out.old))) }
    ensures out_after { out.new ≡ export_memory 4 answer.old out.old (agreement_memory image.now zone out.old) }
{
    if answer.len() < 8 * AGREEMENT_WORDS {
        return 46;
    }
    put_answer(
        answer,
        agreement_answer(faces::parents_agree(image, zone, out)),
        AGREEMENT_WORDS,
    )
}

// The path of a node in front of `out`. The answer, three words: node, entry, length.
#[unsafe(no_mangle)]
pub extern "C" fn gongaurora_export_path(
    image: &[u8],
    node: u64,
    out: &mut [u8],
    answer: &mut [u8],
) -> u64
    ensures value { result ≡ export_rule 3 answer.old (path_answer image.now node (length out.old)) }
    ensures answer_after { answer.new ≡ export_bytes answer.old (count_words (path_answer image.now node (length out.old))) }
    ensures out_after { out.new ≡ export_memory 3 answer.old out.old (path_memory image.now node out.old) }
{
    if answer.len() < 8 * PATH_WORDS {
        return 46;
    }
    put_answer(
        answer,
        count_answer(paths::path(image, node, out)),
        PATH_WORDS,
    )
}

// The name bytes compared where each two siblings are, up to the first byte that differs. The answer, three words: node, entry, count of bytes.
#[unsafe(no_mangle)]
pub extern "C" fn gongaurora_export_name_bytes(image: &[u8], answer: &mut [u8]) -> u64
    ensures value { result ≡ export_rule 3 answer.old (name_bytes_answer image.now) }
    ensures answer_after { answer.new ≡ export_bytes answer.old (count_words (name_bytes_answer image.now)) }
{
    if answer.len() < 8 * NAMES_WORDS {
        return 46; // no name is compared
    }
    put_answer(answer, count_answer(table::name_bytes(image)), NAMES_WORDS)
}

// Value k of a node's array, counted from 1. The answer, four words: node, entry, kind (1 whole, 2 single, 3 double), bits (a whole number's at 64 bits).
#[unsafe(no_mangle)]
pub extern "C" fn gongaurora_export_array_value(
    image: &[u8],
    node: u64,
    k: u64,
    answer: &mut [u8],
) -> u64
    ensures value { result ≡ export_rule 4 answer.old (value_answer image.now node k) }
    ensures answer_after { answer.new ≡ export_bytes answer.old (value_words (value_answer image.now node k)) }
{
    if answer.len() < 8 * VALUE_WORDS {
        return 46;
    }
    put_answer(
        answer,
        value_answer(array_values::array_value(image, node, k)),
        VALUE_WORDS,
    )
}

// The DataSize of an array. The answer, six words: node, entry, directions, and the size in i, j and k, 0 where the array lacks the direction.
#[unsafe(no_mangle)]
pub extern "C" fn gongaurora_export_data_size(image: &[u8], node: u64, answer: &mut [u8]) -> u64
    ensures value { result ≡ export_rule 6 answer.old (data_size_answer image.now node) }
    ensures answer_after { answer.new ≡ export_bytes answer.old (size_words (data_size_answer image.now node)) }
{
    if answer.len() < 8 * SIZE_WORDS {
        return 46;
    }
    put_answer(
        answer,
        size_answer(validation::data_size(image, node)),
        SIZE_WORDS,
    )
}

// Starts an image of so many nodes, dimension words and data bytes in the room. The answer, two words: node, entry.
#[unsafe(no_mangle)]
pub extern "C" fn gongaurora_export_writer_start(
    nodes: u64,
    words: u64,
    bytes: u64,
    room: &mut [u8],
    state: &mut [u32],
    answer: &mut [u8],
) -> u64
    ensures { StartExport nodes words bytes room.old state.old answer.old
        result room.new state.new answer.new }
{
    writer_exports::start(nodes, words, bytes, room, state, answer)
}

// Adds a node to the image in the room. The answer, two words: node, entry.
#[unsafe(no_mangle)]
pub extern "C" fn gongaurora_export_writer_add(
    name: &[u8],
    label: &[u8],
    data_type: &[u8],
    dimensions: &[u64],
    parent: u64,
    bytes: &[u8],
    room: &mut [u8],
    state: &mut [u32],
    answer: &mut [u8],
) -> u64
    ensures { AddExport
        (addition name.now label.now data_type.now dimensions.now parent bytes.now)
        room.old state.old answer.old result room.new state.new answer.new }
{
    writer_exports::add(
        name, label, data_type, dimensions, parent, bytes, room, state, answer,
    )
}

// Judges the image in the room by rules 1 to 18. The answer, three words: node, entry, length.
#[unsafe(no_mangle)]
pub extern "C" fn gongaurora_export_writer_finish(
    room: &[u8],
    state: &[u32],
    answer: &mut [u8],
) -> u64
    ensures { FinishExport room.now state.now answer.old result answer.new }
{
    writer_exports::finish(room, state, answer)
}
