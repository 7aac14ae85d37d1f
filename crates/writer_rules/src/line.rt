// Rules 7 and 8 of a node that is added: its parent, and the records above it in the room.
ghost use Rattle.std.specs.Prelude.{◌≡◌, true, ◌+◌, ◌*◌, ◌≤◌, ◌<◌, length, drop};
ghost use Rattle.model.specs.Bytes.{le};
ghost use Rattle.model.specs.Rules.{check};
ghost use Rattle.model.specs.Image.{record_at};
ghost use Rattle.model.specs.Records.{deeper_than};
ghost use Rattle.model.specs.Answers.{stage_tells};
ghost use Rattle.writer_model.specs.Writer.{Addition, tree_with, line_lawful};
ghost use Rattle.writer_rules.specs.Groups.{line_rules};

use model::Rejection;
use records::{Header, Record};
use table::reject;
use writer_model::Writer;

const NO_PARENT: u64 = 4294967295;

const MAX_DEPTH: usize = 32;

// The parent field of record i in the room.
pub fn parent_in(room: &[u8], i: usize) -> u64
    requires { (i < 4294967296) × (record_at i + 84 ≤ length room.now) }
    ensures { (result ≡ le 4 (drop (record_at i + 72) room.now)) × (result < 4294967296) }
{
    words::u32_at(room, Header::SIZE + Record::SIZE * i + Record::PARENT)
}

// Whether rule 7 holds at record i in the room and at all above it.
fn records_lawful(state: Writer, room: &[u8], i: usize) -> bool
    requires { (i < state.node) × (record_at state.node ≤ length room.now) }
    ensures { (a : Addition) → result ≡ line_lawful (tree_with state a room.now) i i }
{
    let mut at = i;
    while 0 < at {
        let up = parent_in(room, at) as usize;
        if at <= up {
            return false;
        }
        at = up;
    }
    parent_in(room, 0) == NO_PARENT
}

// Rule 7: whether the parent of the next node is lawful, and those of all above it.
fn line_lawful(state: Writer, parent: u64, room: &[u8]) -> bool
    requires { record_at state.node ≤ length room.now }
    ensures { (a : Addition) → a.parent ≡ parent → result ≡ line_lawful (tree_with state a room.now) state.node state.node }
{
    let node = state.node as u64;
    if node == 0 {
        return parent == NO_PARENT;
    }
    if node <= parent {
        return false;
    }
    records_lawful(state, room, parent as usize)
}

// Rule 8: whether the next node is deeper than 32. It walks up at most so many parents.
// Apart from `table::tree::is_too_deep`, since this node is in no table yet: its parent is told.
fn is_too_deep(state: Writer, parent: u64, room: &[u8]) -> bool
    requires node_in_bounds { record_at state.node ≤ length room.now }
    requires node_value { (a : Addition) → a.parent ≡ parent → line_lawful (tree_with state a room.now) state.node state.node ≡ true }
    ensures { (a : Addition) → a.parent ≡ parent → result ≡ deeper_than (tree_with state a room.now) 32 state.node }
{
    if state.node == 0 {
        return false;
    }
    let mut at = parent as usize;
    for _ in 1..MAX_DEPTH {
        if at == 0 {
            return false;
        }
        at = parent_in(room, at) as usize;
    }
    at != 0
}

// Rules 7 and 8 at the next node.
pub fn line_stage(state: Writer, parent: u64, room: &[u8]) -> Result<(), Rejection>
    requires { record_at state.node ≤ length room.now }
    ensures { (a : Addition) → a.parent ≡ parent
        → stage_tells result ≡ check state.node (line_rules (tree_with state a room.now) state.node) }
{
    let node = state.node as usize;
    if !line_lawful(state, parent, room) {
        return reject(7, node);
    }
    if is_too_deep(state, parent, room) {
        return reject(8, node);
    }
    Ok(())
}
