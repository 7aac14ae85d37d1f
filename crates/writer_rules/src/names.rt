// Rules 9 to 11 of a node that is added: its name, its label, and the records in the room that have its parent.
ghost use Rattle.std.specs.Prelude.{◌≡◌, not, ◌&&◌, ◌+◌, ◌*◌, ◌≤◌, ◌<◌, eqb, length, take, drop};
ghost use Rattle.model.specs.Lists.{among};
ghost use Rattle.model.specs.Bytes.{le, same};
ghost use Rattle.model.specs.Rules.{check};
ghost use Rattle.model.specs.Image.{record_at};
ghost use Rattle.model.specs.Records.{label_lawful, name_taken};
ghost use Rattle.model.specs.Answers.{stage_tells};
ghost use Rattle.table.specs.Groups.{text_rules};
ghost use Rattle.writer_model.specs.Writer.{Addition, tree_with};
ghost use Rattle.writer_model.specs.Writer.{padded as paddedText};

use super::line::parent_in;
use model::Rejection;
use records::{Header, Record};
use table::reject;
use writer_model::Writer;

const BLANK: u8 = 32;

// A text in a field of 32 bytes, padded right with blanks.
pub fn padded(text: &[u8]) -> [u8; 32]
    requires { length text.now ≤ 32 }
    ensures { result ≡ paddedText text.now }
{
    let mut field: [u8; 32] = [BLANK; 32];
    words::put_bytes(&mut field, 0, text);
    field
}

// Whether a text of at most 32 bytes is lawful in its field, without the barred byte. A longer one is not.
fn is_lawful(text: &[u8], barred: u8) -> bool
    ensures { result ≡ (label_lawful (paddedText text.now) && not (among barred (paddedText text.now))) }
{
    if Record::TEXT_SIZE < text.len() {
        return false;
    }
    let field = padded(text);
    texts::is_text(&field, 0, barred)
}

// Whether the 32 bytes from `at` are this name. It leaves off at the first word that differs. `words::first_difference` tells it too, but a function that
// two crates call is compiled into neither, and an addition took twice as long.
fn has_name(room: &[u8], at: usize, name: &[u8]) -> bool
    requires { (at + 32 ≤ length room.now) × (length name.now ≡ 32) }
    ensures { result ≡ same (take 32 (drop at room.now)) name.now }
{
    for j in 0..4 {
        let x = words::u64_at(room, at + 8 * j);
        let y = words::u64_at(name, 8 * j);
        if x != y {
            return false;
        }
    }
    true
}

// Whether record j in the room has this parent and this name of 32 bytes.
fn is_namesake(name: &[u8], parent: u64, room: &[u8], j: usize) -> bool
    requires { (length name.now ≡ 32) × ((j < 4294967296) × (record_at j + 84 ≤ length room.now)) }
    ensures { result ≡ (eqb (le 4 (drop (record_at j + 72) room.now)) parent
        && same (take 32 (drop (record_at j) room.now)) name.now) }
{
    if parent_in(room, j) != parent {
        return false;
    }
    has_name(room, Header::SIZE + Record::SIZE * j, name)
}

// Rule 11: whether a record before the next node has its parent and its name, padded to 32 bytes.
fn is_taken(state: Writer, name: &[u8], parent: u64, room: &[u8]) -> bool
    requires { (length name.now ≡ 32) × (record_at state.node ≤ length room.now) }
    ensures { (a : Addition) → paddedText a.name ≡ name.now → a.parent ≡ parent
        → result ≡ name_taken (tree_with state a room.now) state.node }
{
    (0..state.node as usize).any(|j| is_namesake(name, parent, room, j))
}

// Rules 9 to 11 at the next node.
pub fn text_stage(
    state: Writer,
    name: &[u8],
    label: &[u8],
    parent: u64,
    room: &[u8],
) -> Result<(), Rejection>
    requires { record_at state.node ≤ length room.now }
    ensures { (a : Addition) → a.name ≡ name.now → a.label ≡ label.now → a.parent ≡ parent
        → stage_tells result ≡ check state.node (text_rules (tree_with state a room.now) state.node) }
{
    let node = state.node as usize;
    if !is_lawful(name, texts::SLASH) {
        return reject(9, node);
    }
    if !is_lawful(label, 0) {
        return reject(10, node);
    }
    let field = padded(name);
    if is_taken(state, &field, parent, room) {
        return reject(11, node);
    }
    Ok(())
}
