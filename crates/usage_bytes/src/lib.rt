// The bytes of face usage: one for each face, 0 unused, 1 used forward, 2 reversed, 3 both.
#![tactic(auto)]

ghost use Rattle.std.specs.Prelude.{◌≡◌, ◌++◌, ◌≤◌, ◌<◌, length, get_or, drop, replicate};
ghost use Rattle.model.specs.FaceUsage.{unused};
ghost use Rattle.usage_bytes.specs.Marks.{sign_of, after_use};

pub mod parent_marks; // parent_marks.rt: which parents of a face are matched with uses

// Makes the first n bytes 0; the others stay.
pub fn clear(out: &mut [u8], n: usize)
    requires { n ≤ length out.old }
    ensures { out.new ≡ replicate n 0 ++ drop n out.old }
{
    out[..n].fill(0);
}

// Is the bit of a sign free in a byte?
fn is_unused(byte: u8, reversed: bool) -> bool
    ensures { (result ≡ unused (sign_of reversed) byte) × (byte < 256) }
{
    if reversed {
        byte / 2 % 2 == 0
    } else {
        byte % 2 == 0
    }
}

// Uses the face at place p once: true where its sign was free, false and no change where it was not.
pub fn use_face(out: &mut [u8], p: usize, reversed: bool) -> bool
    requires { p < length out.old }
    ensures { (result ≡ unused (sign_of reversed) (get_or out.old p 0)) × (out.new ≡ after_use result (sign_of reversed) p out.old) }
{
    let byte = out[p];
    if !is_unused(byte, reversed) {
        return false;
    }
    if reversed {
        out[p] = byte + 2;
        return true;
    }
    out[p] = byte + 1;
    true
}
