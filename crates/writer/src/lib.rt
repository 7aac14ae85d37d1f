// The writer: an image made node by node in a lent room. Each call answers on any state and any room; a refused one changes nothing.
#![tactic(auto)]

ghost use Rattle.std.specs.Prelude.{◌≡◌, [], ◌∷◌, ◌+◌, ◌≤◌, ◌<◌, leb, ltb, length};
ghost use Rattle.model.specs.Rules.{◌unless◌, check};
ghost use Rattle.model.specs.Answers.{stage_tells, count_tells};
ghost use Rattle.writer_model.specs.Writer.{room_for, needed_room, start_check, start_answer, start_memory, add_check, add_answer, add_memory, finish_check, finish_answer};
ghost use Rattle.writer_model.specs.Answers.{writing_tells};
ghost use Rattle.writer_model.specs.Writer.{addition};

use model::Rejection;
use records::{Header, Record};
use table::reject;
use writer_model::Writer;

const MAX_NODES: u64 = 4096;

const MAX_WORDS: u64 = 49152;

const MAX_LENGTH: u64 = 16777216;

// The room that an image with so many nodes, words and bytes needs.
fn room_for(nodes: u64, words: u64, bytes: u64) -> u64
    requires { (nodes < 4294967296) × ((words < 4294967296) × (bytes < 4294967296)) }
    ensures { result ≡ room_for nodes words bytes }
{
    Header::SIZE as u64 + Record::SIZE as u64 * nodes + 8 * words + bytes
}

// The room that the image of a state needs.
fn needed_room(state: Writer) -> u64
    ensures { result ≡ needed_room state }
{
    room_for(state.nodes as u64, state.words as u64, state.bytes as u64)
}

// Why a start is refused: 4, 5, 1, 46.
fn start_stage(nodes: u64, words: u64, bytes: u64, room: u64) -> Result<(), Rejection>
    ensures { stage_tells result ≡ start_check nodes words bytes room }
{
    if !table::is_within(nodes, 1, MAX_NODES) {
        return reject(4, 0);
    }
    if MAX_WORDS < words {
        return reject(5, 0);
    }
    let base = room_for(nodes, words, 0);
    if MAX_LENGTH - base < bytes {
        return reject(1, 0);
    }
    if room < base + bytes {
        return reject(46, 0);
    }
    Ok(())
}

// Starts an image of so many nodes, dimension words and data bytes: the needed room holds its header and zeros.
pub fn start(nodes: u64, words: u64, bytes: u64, room: &mut [u8]) -> Result<Writer, Rejection>
    ensures result_value { writing_tells result ≡ start_answer nodes words bytes (length room.old) }
    ensures room_after { room.new ≡ start_memory nodes words bytes room.old }
{
    start_stage(nodes, words, bytes, room.len() as u64)?;
    writer_parts::put_blank(room, nodes, words, bytes);
    Ok(Writer {
        nodes: nodes as u32,
        words: words as u32,
        bytes: bytes as u32,
        node: 0,
        word: 0,
        byte: 0,
    })
}

// Why an addition is refused before the node is looked at: 46, 50.
fn turn_stage(state: Writer, room: u64) -> Result<(), Rejection>
    ensures { stage_tells result ≡ check 0 (46 unless leb (needed_room state) room ∷ 50 unless ltb state.node state.nodes ∷ []) }
{
    if room < needed_room(state) {
        return reject(46, 0);
    }
    if state.nodes <= state.node {
        return reject(50, 0);
    }
    Ok(())
}

// Why an addition is refused: 46, 50, then rules 7 to 17 at the next node.
fn addition_stage(
    state: Writer,
    name: &[u8],
    label: &[u8],
    data_type: &[u8],
    dimensions: &[u64],
    parent: u64,
    bytes: &[u8],
    room: &[u8],
) -> Result<(), Rejection>
    ensures { stage_tells result ≡ add_check state
        (addition name.now label.now data_type.now dimensions.now parent bytes.now)
        room.now }
{
    turn_stage(state, room.len() as u64)?;
    writer_rules::line_stage(state, parent, room)?;
    writer_rules::text_stage(state, name, label, parent, room)?;
    writer_rules::type_stage(state, data_type, dimensions.len() as u64, room)?;
    writer_rules::size_stage(state, data_type, dimensions, bytes.len() as u64, room)
}

// The state after a node with so many dimensions and data bytes.
fn next_state(state: Writer, rank: usize, size: usize) -> Writer
    requires { (state.node < state.nodes) × ((state.word + rank ≤ state.words) × (state.byte + size ≤ state.bytes)) }
    ensures { result ≡ record { nodes = state.nodes; words = state.words; bytes = state.bytes; node = state.node + 1; word = state.word + rank; byte = state.byte + size } }
{
    Writer {
        nodes: state.nodes,
        words: state.words,
        bytes: state.bytes,
        node: state.node + 1,
        word: state.word + rank as u32,
        byte: state.byte + size as u32,
    }
}

// Adds a node: writes its record, its dimension words and its data, and nothing else.
pub fn add(
    state: Writer,
    name: &[u8],
    label: &[u8],
    data_type: &[u8],
    dimensions: &[u64],
    parent: u64,
    bytes: &[u8],
    room: &mut [u8],
) -> Result<Writer, Rejection>
    ensures result_value { writing_tells result ≡ add_answer state
        (addition name.now label.now data_type.now dimensions.now parent bytes.now)
        room.old }
    ensures room_after { room.new ≡ add_memory state
        (addition name.now label.now data_type.now dimensions.now parent bytes.now)
        room.old }
{
    addition_stage(
        state, name, label, data_type, dimensions, parent, bytes, room,
    )?;
    writer_parts::put_node(
        state, name, label, data_type, dimensions, parent, bytes, room,
    );
    Ok(next_state(state, dimensions.len(), bytes.len()))
}

// Why an image is not finished before it is judged: 46, 51.
fn end_stage(state: Writer, room: u64) -> Result<(), Rejection>
    ensures { stage_tells result ≡ check 0 (46 unless leb (needed_room state) room ∷ 51 unless leb state.nodes state.node ∷ []) }
{
    if room < needed_room(state) {
        return reject(46, 0);
    }
    if state.node < state.nodes {
        return reject(51, 0);
    }
    Ok(())
}

// Why an image is not finished: 46, 51, then rules 1 to 18 of the needed room.
fn finish_stage(state: Writer, room: &[u8]) -> Result<(), Rejection>
    ensures { stage_tells result ≡ finish_check state room.now }
{
    end_stage(state, room.len() as u64)?;
    let end = needed_room(state) as usize;
    table::table_stage(&room[..end])
}

// Judges the needed room by rules 1 to 18, and answers its length.
pub fn finish(state: Writer, room: &[u8]) -> Result<u64, Rejection>
    ensures { count_tells result ≡ finish_answer state room.now }
{
    finish_stage(state, room)?;
    Ok(needed_room(state))
}
