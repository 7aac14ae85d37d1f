// The marks of a face's parents, in the bits above those of the signs: 1 where the first parent is matched with a use, 2 where the second is.
ghost use Rattle.std.specs.Prelude.{◌≡◌, ◌+◌, ◌*◌, ◌/◌, ◌≤◌, ◌<◌, ◌&&◌, eqb, ltb, length, get_or};
ghost use Rattle.usage_bytes.specs.Marks.{after_use};
ghost use Rattle.usage_bytes.specs.ParentMarks.{matched, complete, Unmarked};

// Is a parent the cell of a use, and its mark free?
fn takes(is_cell: bool, mark: u8) -> bool
    ensures { result ≡ (is_cell && eqb mark 0) }
{
    if is_cell { mark == 0 } else { false }
}

// What a use adds to the marks: its cell is the first parent or not, the second or not. 0 where no parent can be matched with it.
fn more_marks(marks: u8, first: bool, second: bool) -> u8
    requires { marks < 64 }
    ensures { (result ≡ matched first second marks) × (marks + result < 64) }
{
    if takes(first, marks % 2) {
        return 1;
    }
    if takes(second, marks / 2 % 2) {
        return 2;
    }
    0
}

// Matches a use of the face at place p with one of its parents that is not matched yet; false, and no change, where there is none.
pub fn match_parent(out: &mut [u8], p: usize, first: bool, second: bool) -> bool
    requires { p < length out.old }
    ensures { (result ≡ ltb 0 (matched first second (get_or out.old p 0 / 4)))
        × (out.new ≡ after_use result (4 * matched first second (get_or out.old p 0 / 4)) p out.old) }
{
    let byte = out[p];
    let more = more_marks(byte / 4, first, second);
    if more == 0 {
        return false;
    }
    out[p] = byte + 4 * more;
    true
}

// Is each parent of a face matched? `single` where it has no second one.
pub fn is_complete(byte: u8, single: bool) -> bool
    ensures { result ≡ complete single (byte / 4) }
{
    let marks = byte / 4;
    marks % 2 == 1 && (single || marks / 2 % 2 == 1)
}

// Takes the marks from the first n bytes.
pub fn clear_marks(out: &mut [u8], n: usize)
    requires { n ≤ length out.old }
    ensures { Unmarked n out.old out.new }
{
    for byte in out[..n].iter_mut() {
        *byte %= 4;
    }
}
