// Names and labels of the node records: the tests of rules 9, 10 and 11.
#![tactic(auto)]

ghost use Rattle.std.specs.Prelude.{◌≡◌, not, ◌&&◌, ◌+◌, ◌≤◌, ◌<◌, length};
ghost use Rattle.model.specs.Lists.{among};
ghost use Rattle.model.specs.Image.{name, label, parent};
ghost use Rattle.model.specs.Records.{name_lawful, label_lawful, namesake, name_taken};
ghost use Rattle.model.specs.NameBytes.{first_difference};
ghost use Rattle.records.specs.Table.{all_records, HasRecord};
ghost use Rattle.texts.specs.Texts.{text_at, text_byte, bad_byte, text_bytes};
ghost use Rattle.texts.specs.Keys.{key_at, Seen};

mod keys; // keys.rt: keys of names, marks of those met, nodes linked by them
pub mod links; // links.rt: numbers of one class linked

pub use keys::{add_node, name_key};
use records::{Record, nodes};

const BLANK: u8 = 32;

pub const SLASH: u8 = 47;

// The place past the last byte of a name, which the model's `first_difference` answers where no byte differs.
pub const NONE_DIFFERS: usize = 33;

// Whether a byte may stand in a text that bars one byte.
fn is_text_byte(x: u8, barred: u8) -> bool
    ensures { result ≡ text_byte barred x }
{
    (32..=126).contains(&x) && x != barred
}

// 0 for a byte that may, 1 for one that may not.
fn bad(x: u8, barred: u8) -> u8
    ensures { (result ≡ bad_byte barred x) × (result ≤ 1) }
{
    if is_text_byte(x, barred) { 0 } else { 1 }
}

// Whether all 32 bytes from `at` may. It counts those that may not: a loop with no way out of it.
fn all_text_bytes(table: &[u8], at: usize, barred: u8) -> bool
    requires { at + 32 ≤ length table.now }
    ensures { result ≡ text_bytes barred (text_at table.now at) }
{
    let text = &table[at..at + Record::TEXT_SIZE];
    let mut n: u8 = 0;
    for x in text {
        n += bad(*x, barred);
    }
    n == 0
}

// Whether the 32 bytes from `at` are a lawful text without the barred byte.
pub fn is_text(table: &[u8], at: usize, barred: u8) -> bool
    requires { at + 32 ≤ length table.now }
    ensures { result ≡ (label_lawful (text_at table.now at) && not (among barred (text_at table.now at))) }
{
    if table[at] == BLANK {
        return false;
    }
    all_text_bytes(table, at, barred)
}

// Rule 9: whether the name of node i is lawful. A name has no slash.
pub fn name_lawful(table: &[u8], i: usize) -> bool
    requires { HasRecord table.now i }
    ensures { result ≡ name_lawful (name (all_records table.now) i) }
{
    is_text(table, Record::SIZE * i + Record::NAME, SLASH)
}

// Rule 10: whether the label of node i is lawful. Byte 0 is barred, as it is in every text.
pub fn label_lawful(table: &[u8], i: usize) -> bool
    requires { HasRecord table.now i }
    ensures { result ≡ label_lawful (label (all_records table.now) i) }
{
    is_text(table, Record::SIZE * i + Record::LABEL, 0)
}

// The place, from 1, of the first byte in which the names of nodes j and i differ; 33 where none does.
pub fn name_difference(table: &[u8], i: usize, j: usize) -> usize
    requires { HasRecord table.now i × HasRecord table.now j }
    ensures { (result ≡ first_difference (name (all_records table.now) j) (name (all_records table.now) i))
        × ((1 ≤ result) × (result ≤ 33)) }
{
    words::first_difference(
        table,
        Record::SIZE * j + Record::NAME,
        table,
        Record::SIZE * i + Record::NAME,
    )
}

// Whether node j has the parent `up` of node i, and its name. Names of siblings alone are compared.
pub fn is_namesake(table: &[u8], i: usize, up: usize, j: usize) -> bool
    requires has_record { HasRecord table.now i × HasRecord table.now j }
    requires up_value { up ≡ parent (all_records table.now) i }
    ensures { result ≡ namesake (all_records table.now) i j }
{
    if nodes::parent_of(table, j) != up {
        return false;
    }
    name_difference(table, i, j) == NONE_DIFFERS
}

// Rule 11, where the key of node i may have been marked: whether an earlier node of its class is a sibling with its name.
fn is_linked_namesake(table: &[u8], i: usize, key: usize, seen: &[u16]) -> bool
    requires has_record { HasRecord table.now i }
    requires key_value { (key ≡ key_at (all_records table.now) i) × Seen (all_records table.now) i seen.now }
    ensures { result ≡ name_taken (all_records table.now) i }
{
    let up = nodes::parent_of(table, i);
    let mut j = seen[keys::class_of(key)] as usize;
    while 0 < j {
        if is_namesake(table, i, up, j - 1) {
            return true;
        }
        j = seen[links::BEFORE + (j - 1)] as usize;
    }
    false
}

// Rule 11: whether an earlier sibling of node i has its name. It would have the key too, so most nodes need no search.
pub fn name_taken(table: &[u8], i: usize, key: usize, seen: &[u16]) -> bool
    requires has_record { HasRecord table.now i }
    requires key_value { (key ≡ key_at (all_records table.now) i) × Seen (all_records table.now) i seen.now }
    ensures { result ≡ name_taken (all_records table.now) i }
{
    if !keys::may_be_marked(seen, key) {
        return false;
    }
    is_linked_namesake(table, i, key, seen)
}

// How many nodes the search for an earlier sibling of a node with this key looks at, at most: none where the key was not marked.
pub fn search_length(seen: &[u16], key: usize) -> usize
    requires { (16384 ≤ length seen.now) × (key < 4194304) }
    ensures { result ≤ 4096 }
{
    if !keys::may_be_marked(seen, key) {
        return 0;
    }
    links::class_size(seen, keys::class_of(key))
}
