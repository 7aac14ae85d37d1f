// The fields of a node record that are bytes, copied out of the table.
ghost use Rattle.std.specs.Prelude.{◌≡◌, ◌+◌, ◌≤◌, length, take, drop};

use super::Record;

// The 32 bytes from `at`.
pub fn text_at(table: &[u8], at: usize) -> [u8; 32]
    requires { at + 32 ≤ length table.now }
    ensures { result ≡ take 32 (drop at table.now) }
{
    let mut text: [u8; 32] = [0; 32];
    words::put_bytes(&mut text, 0, &table[at..at + Record::TEXT_SIZE]);
    text
}

// The two bytes from `at`.
pub fn pair_at(table: &[u8], at: usize) -> [u8; 2]
    requires { at + 2 ≤ length table.now }
    ensures { result ≡ take 2 (drop at table.now) }
{
    let first = table[at];
    let second = table[at + 1];
    [first, second]
}
