// The writer's calls as they are exported for C. A state is six numbers, which a start and an addition change where they succeed. Where these are fewer, or the lent
// bytes too few for the answer's words, an export answers 46 and writes nothing at all.
#![tactic(auto)]

ghost use Rattle.std.specs.Prelude.{◌≡◌, ◌≤◌, length, take};
ghost use Rattle.model.specs.Lists.{over};
ghost use Rattle.model.specs.Bytes.{all_bytes};
ghost use Rattle.model.specs.ReadList.{rule_of};
ghost use Rattle.writer_model.specs.Answers.{writing_tells};
ghost use Rattle.writer_model.specs.Exports.{state_in, state_after, writing_words, StartExport, AddExport, FinishExport};
ghost use Rattle.writer_model.specs.Writer.{addition};

use answers::{ExportAnswer, count_answer, put_answer};
use model::Rejection;
use writer_model::Writer;

const STATE_LENGTH: usize = 6;

// How many words an answer has, of 8 bytes each.
const WRITING_WORDS: usize = 2;

const FINISH_WORDS: usize = 3;

// The state that six numbers are.
fn state_in(state: &[u32]) -> Writer
    requires { 6 ≤ length state.now }
    ensures { result ≡ state_in state.now }
{
    Writer {
        nodes: state[0],
        words: state[1],
        bytes: state[2],
        node: state[3],
        word: state[4],
        byte: state[5],
    }
}

// Writes the state that was answered; a refusal leaves the numbers.
fn put_state(w: Result<Writer, Rejection>, state: &mut [u32])
    requires { 6 ≤ length state.old }
    ensures { state.new ≡ state_after (writing_tells w) state.old }
{
    let Ok(s) = w else {
        return;
    };
    state[0] = s.nodes;
    state[1] = s.words;
    state[2] = s.bytes;
    state[3] = s.node;
    state[4] = s.word;
    state[5] = s.byte;
}

// A start or an addition: node and entry.
fn writing_answer(w: Result<Writer, Rejection>) -> ExportAnswer
    ensures { (result.rule ≡ rule_of (writing_tells w)) × (take 2 result.words ≡ writing_words (writing_tells w)) }
{
    match w {
        Ok(_) => ExportAnswer {
            rule: 0,
            words: [0; 6],
        },
        Err(r) => ExportAnswer {
            rule: r.rule,
            words: [r.node, r.entry, 0, 0, 0, 0],
        },
    }
}

// What a start or an addition told: the state and the answer's words are written, the rule is answered.
fn put_writing(w: Result<Writer, Rejection>, state: &mut [u32], answer: &mut [u8]) -> u64
    requires { (6 ≤ length state.old) × (16 ≤ length answer.old) }
    ensures { (result ≡ rule_of (writing_tells w)) × ((state.new ≡ state_after (writing_tells w) state.old)
        × (answer.new ≡ over answer.old (all_bytes 8 (writing_words (writing_tells w))))) }
{
    put_state(w, state);
    put_answer(answer, writing_answer(w), WRITING_WORDS)
}

// Starts an image of so many nodes, dimension words and data bytes in the room. The answer, two words: node, entry.
pub fn start(
    nodes: u64,
    words: u64,
    bytes: u64,
    room: &mut [u8],
    state: &mut [u32],
    answer: &mut [u8],
) -> u64
    ensures { StartExport nodes words bytes room.old state.old answer.old
        result room.new state.new answer.new }
{
    if state.len() < STATE_LENGTH {
        return 46;
    }
    if answer.len() < 8 * WRITING_WORDS {
        return 46;
    }
    put_writing(writer::start(nodes, words, bytes, room), state, answer)
}

// Adds a node to the image in the room. The answer, two words: node, entry.
pub fn add(
    name: &[u8],
    label: &[u8],
    data_type: &[u8],
    dimensions: &[u64],
    parent: u64,
    bytes: &[u8],
    room: &mut [u8],
    state: &mut [u32],
    answer: &mut [u8],
) -> u64
    ensures { AddExport
        (addition name.now label.now data_type.now dimensions.now parent bytes.now)
        room.old state.old answer.old result room.new state.new answer.new }
{
    if state.len() < STATE_LENGTH {
        return 46;
    }
    if answer.len() < 8 * WRITING_WORDS {
        return 46;
    }
    put_writing(
        writer::add(
            state_in(state),
            name,
            label,
            data_type,
            dimensions,
            parent,
            bytes,
            room,
        ),
        state,
        answer,
    )
}

// Judges the image in the room by rules 1 to 18. The answer, three words: node, entry, length.
pub fn finish(room: &[u8], state: &[u32], answer: &mut [u8]) -> u64
    ensures { FinishExport room.now state.now answer.old result answer.new }
{
    if state.len() < STATE_LENGTH {
        return 46;
    }
    if answer.len() < 8 * FINISH_WORDS {
        return 46;
    }
    put_answer(
        answer,
        count_answer(writer::finish(state_in(state), room)),
        FINISH_WORDS,
    )
}
