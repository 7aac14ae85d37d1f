// Keys of names: the marks of those met so far, which tell at once of most names that no earlier sibling has them; and nodes linked by them.
ghost use Rattle.std.specs.Prelude.{◌≡◌, ◌+◌, ◌%◌, ◌≤◌, ◌<◌, length};
ghost use Rattle.records.specs.Table.{all_records, HasRecord};
ghost use Rattle.texts.specs.Texts.{text_at};
ghost use Rattle.texts.specs.Keys.{text_sum, key_at, marked, may_be_marked, with_key, with_node};

use super::links;
use records::{Record, nodes};

// Keys are below this prime. It and the factors of the words spread names that share most of their bytes; no answer depends on them.
const KEYS: u64 = 4100011;

// Nodes of so many classes are linked: by the remainders of their keys.
const CLASSES: usize = 4096;

// Where the marks stand in the lent table, and how many keys share one.
const MARKS: usize = 8192;

const SHARE: usize = 512;

// What a place holds where marks that differ were made.
const MANY: u16 = 65535;

// The four words of the text at `at`, each by its factor.
fn text_sum(table: &[u8], at: usize) -> u64
    requires { at + 32 ≤ length table.now }
    ensures { (result ≡ text_sum (text_at table.now at)) × (result ≤ 30000000000000) }
{
    let a = words::u64_at(table, at) % KEYS;
    let b = words::u64_at(table, at + 8) % KEYS;
    let c = words::u64_at(table, at + 16) % KEYS;
    let d = words::u64_at(table, at + 24) % KEYS;
    a * 1000003 + b * 1500007 + c * 2000003 + d * 2500009
}

// The key of node i, a number from its name and its parent: siblings of one name have one key.
pub fn name_key(table: &[u8], i: usize) -> usize
    requires { HasRecord table.now i }
    ensures { result ≡ key_at (all_records table.now) i }
{
    let sum = text_sum(table, Record::SIZE * i + Record::NAME);
    let up = nodes::parent_of(table, i) as u64;
    ((sum + up * 3000017) % KEYS) as usize
}

// What a place holds after a mark, where it held x: the mark, or that there are many.
fn joined(x: u16, mark: u16) -> u16
    ensures { result ≡ marked x mark }
{
    if x == 0 || x == mark { mark } else { MANY }
}

// Marks a key.
fn add_key(seen: &mut [u16], key: usize)
    requires { (16384 ≤ length seen.old) × (key < 4194304) }
    ensures { seen.new ≡ with_key seen.old key }
{
    let at = MARKS + key / SHARE;
    seen[at] = joined(seen[at], (key % SHARE + 1) as u16);
}

// Whether the key may have been marked. It answers true for each key that was.
pub fn may_be_marked(seen: &[u16], key: usize) -> bool
    requires { (16384 ≤ length seen.now) × (key < 4194304) }
    ensures { result ≡ may_be_marked seen.now key }
{
    let x = seen[MARKS + key / SHARE];
    let mark = (key % SHARE + 1) as u16;
    x == MANY || x == mark
}

// The class of a node with this key.
pub fn class_of(key: usize) -> usize
    ensures { (result ≡ key % 4096) × (result < 4096) }
{
    key % CLASSES
}

// Marks the key of node i and links the node.
pub fn add_node(seen: &mut [u16], i: usize, key: usize)
    requires { ((16384 ≤ length seen.old) × (i < 4096)) × (key < 4194304) }
    ensures { seen.new ≡ with_node seen.old i key }
{
    add_key(seen, key);
    links::add(seen, i, class_of(key));
}
