// What is written: the header and zeros of a start; a node's record, its dimension words and its data.
#![tactic(auto)]

ghost use Rattle.std.specs.Prelude.{◌≡◌, ◌++◌, ◌+◌, ◌*◌, ◌≤◌, ◌<◌, length, replicate};
ghost use Rattle.model.specs.Lists.{over, over_at};
ghost use Rattle.model.specs.Bytes.{le_bytes, all_bytes};
ghost use Rattle.model.specs.Rules.{passed};
ghost use Rattle.model.specs.Build.{header_words};
ghost use Rattle.writer_model.specs.Writer.{room_for, start_check, blank_image, add_check, with_node};
ghost use Rattle.writer_model.specs.Writer.{addition};

use records::{Header, Record, RecordNumbers};
use writer_model::Writer;
use writer_rules::padded;

// Writes n zeros from `at` on; the rest stays.
fn put_zeros(out: &mut [u8], at: usize, n: usize)
    requires { at + n ≤ length out.old }
    ensures { out.new ≡ over_at at out.old (replicate n 0) }
{
    out[at..at + n].fill(0);
}

// Writes the header of an image with so many nodes, dimension words and data bytes.
fn put_header(room: &mut [u8], nodes: u64, words: u64, bytes: u64)
    requires { (room_for nodes words bytes ≤ 16777216) × (32 ≤ length room.old) }
    ensures { room.new ≡ over room.old (all_bytes 4 (header_words nodes words bytes)) }
{
    let words_at = Header::SIZE as u64 + Record::SIZE as u64 * nodes;
    let data_at = words_at + 8 * words;
    words::put_word(room, Header::FORM, 4, 1);
    words::put_word(room, Header::TOTAL_LENGTH, 4, data_at + bytes);
    words::put_word(room, Header::NODE_COUNT, 4, nodes);
    words::put_word(room, Header::RECORD_OFFSET, 4, Header::SIZE as u64);
    words::put_word(room, Header::DIMENSION_OFFSET, 4, words_at);
    words::put_word(room, Header::WORD_COUNT, 4, words);
    words::put_word(room, Header::DATA_OFFSET, 4, data_at);
    words::put_word(room, Header::DATA_LENGTH, 4, bytes);
}

// Writes what a start leaves: the header, and zeros in the rest of the needed room.
pub fn put_blank(room: &mut [u8], nodes: u64, words: u64, bytes: u64)
    requires { start_check nodes words bytes (length room.old) ≡ passed }
    ensures { room.new ≡ over room.old (blank_image nodes words bytes) }
{
    put_header(room, nodes, words, bytes);
    put_zeros(
        room,
        Header::SIZE,
        Record::SIZE * nodes as usize + 8 * words as usize + bytes as usize,
    );
}

// Writes a record: its texts and its type, then its numbers.
fn put_record(
    room: &mut [u8],
    at: usize,
    name: &[u8],
    label: &[u8],
    data_type: &[u8],
    r: RecordNumbers,
)
    requires { ((length name.now ≡ 32) × ((length label.now ≡ 32) × (length data_type.now ≡ 2))) × (at + 84 ≤ length room.old) }
    ensures { room.new ≡ over_at at room.old
        (name.now ++ label.now ++ data_type.now ++ le_bytes 2 r.rank ++ le_bytes 4 r.first_word ++ le_bytes 4 r.parent
        ++ le_bytes 4 r.data_at ++ le_bytes 4 r.data_size) }
{
    words::put_bytes(room, at + Record::NAME, name);
    words::put_bytes(room, at + Record::LABEL, label);
    words::put_bytes(room, at + Record::DATA_TYPE, data_type);
    words::put_word(room, at + Record::RANK, 2, r.rank);
    words::put_word(room, at + Record::FIRST_WORD, 4, r.first_word);
    words::put_word(room, at + Record::PARENT, 4, r.parent);
    words::put_word(room, at + Record::DATA_AT, 4, r.data_at);
    words::put_word(room, at + Record::DATA_SIZE, 4, r.data_size);
}

// Writes a node that was not refused: its record, its words and its data.
pub fn put_node(
    state: Writer,
    name: &[u8],
    label: &[u8],
    data_type: &[u8],
    dimensions: &[u64],
    parent: u64,
    bytes: &[u8],
    room: &mut [u8],
)
    requires { add_check state (addition name.now label.now data_type.now dimensions.now parent bytes.now) room.old ≡ passed }
    ensures { room.new ≡ with_node state
        (addition name.now label.now data_type.now dimensions.now parent bytes.now)
        room.old }
{
    let words_at = Header::SIZE + Record::SIZE * state.nodes as usize;
    let data_at = words_at + 8 * state.words as usize;
    let name_field = padded(name);
    let label_field = padded(label);
    let numbers = RecordNumbers {
        rank: dimensions.len() as u64,
        first_word: state.word as u64,
        parent,
        data_at: state.byte as u64,
        data_size: bytes.len() as u64,
    };
    put_record(
        room,
        Header::SIZE + Record::SIZE * state.node as usize,
        &name_field,
        &label_field,
        data_type,
        numbers,
    );
    words::put_words(room, words_at + 8 * state.word as usize, dimensions);
    words::put_bytes(room, data_at + state.byte as usize, bytes);
}
