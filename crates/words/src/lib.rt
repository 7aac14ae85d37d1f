// Little-endian words and two's-complement numbers at a place of a byte slice.
#![tactic(auto)]

ghost use Rattle.std.specs.Prelude.{◌≡◌, ◌+◌, ◌*◌, ◌^◌, ◌≤◌, ◌<◌, T, nat_abs, length, get_or, take, drop};
ghost use Rattle.model.specs.Lists.{over_at};
ghost use Rattle.model.specs.Bytes.{le, le_bytes, all_bytes, signed};
ghost use Rattle.model.specs.NameBytes.{first_difference};
ghost use Rattle.words.specs.Difference.{same_bytes};
ghost use Rattle.words.specs.Width.{is_width};

// One byte, widened: its bound comes with it.
pub fn byte_at(s: &[u8], at: usize) -> u64
    requires { at < length s.now }
    ensures { (result ≡ get_or s.now at 0) × (result < 256) }
{
    s[at] as u64
}

// The number in `width` bytes from `at`.
pub fn word_at(s: &[u8], at: usize, width: usize) -> u64
    requires { (width ≤ 8) × (at + width ≤ length s.now) }
    ensures { (result ≡ le width (drop at s.now)) × (result < 256 ^ width) }
{
    let mut r: u64 = 0;
    for k in (0..width).rev() {
        r = r * 256 + byte_at(s, at + k);
    }
    r
}

// The u16, u32 and u64 words from `at`, each a name for `word_at` at its width.
pub fn u16_at(s: &[u8], at: usize) -> u64
    requires { at + 2 ≤ length s.now }
    ensures { (result ≡ le 2 (drop at s.now)) × (result < 65536) }
{
    word_at(s, at, 2)
}

pub fn u32_at(s: &[u8], at: usize) -> u64
    requires { at + 4 ≤ length s.now }
    ensures { (result ≡ le 4 (drop at s.now)) × (result < 4294967296) }
{
    word_at(s, at, 4)
}

pub fn u64_at(s: &[u8], at: usize) -> u64
    requires { at + 8 ≤ length s.now }
    ensures { result ≡ le 8 (drop at s.now) }
{
    word_at(s, at, 8)
}

// How many low bytes two words that differ share before the first that does. There are at most 7: the remainder tells the compiler.
fn same_bytes(x: u64, y: u64) -> usize
    requires { x ≡ y → ⊥ }
    ensures { (result ≡ same_bytes 8 x y) × (result ≤ 7) }
{
    (x.abs_diff(y).trailing_zeros() / 8 % 8) as usize
}

// The place, from 1, of the first byte in which two fields of 32 bytes differ; 33 where none does. It leaves off at the word
// that has it.
// A number where none differs too: it is the model's `first_difference`, of which the name bytes are a sum.
pub fn first_difference(a: &[u8], p: usize, b: &[u8], q: usize) -> usize
    requires { (p + 32 ≤ length a.now) × (q + 32 ≤ length b.now) }
    ensures { (result ≡ first_difference (take 32 (drop p a.now)) (take 32 (drop q b.now))) × ((1 ≤ result) × (result ≤ 33)) }
{
    for j in 0..4 {
        let x = u64_at(a, p + 8 * j);
        let y = u64_at(b, q + 8 * j);
        if x != y {
            return 8 * j + same_bytes(x, y) + 1;
        }
    }
    33
}

// The signed number in `width` bytes from `at`, 4 or 8.
pub fn signed_at(s: &[u8], at: usize, width: usize) -> i64
    requires { (T (is_width width)) × (at + width ≤ length s.now) }
    ensures { result ≡ signed width (le width (drop at s.now)) }
{
    if width == 4 {
        i32_at(s, at) as i64
    } else {
        i64_at(s, at)
    }
}

// A signed 32 bit number from `at`.
pub fn i32_at(s: &[u8], at: usize) -> i32
    requires { at + 4 ≤ length s.now }
    ensures { result ≡ signed 4 (le 4 (drop at s.now)) }
{
    (u32_at(s, at) as u32).cast_signed()
}

// A signed 64 bit number from `at`.
pub fn i64_at(s: &[u8], at: usize) -> i64
    requires { at + 8 ≤ length s.now }
    ensures { result ≡ signed 8 (le 8 (drop at s.now)) }
{
    u64_at(s, at).cast_signed()
}

// Writes x in `width` little-endian bytes from `at` on; the rest stays.
pub fn put_word(out: &mut [u8], at: usize, width: usize, x: u64)
    requires { (width ≤ 8) × (at + width ≤ length out.old) }
    ensures { out.new ≡ over_at at out.old (le_bytes width x) }
{
    out[at..at + width].copy_from_slice(&x.to_le_bytes()[..width]);
}

// Writes the bytes of s from `at` on; the rest stays. `copy_from_slice` would make the archive need memmove, beside memcpy and memset.
pub fn put_bytes(out: &mut [u8], at: usize, s: &[u8])
    requires { at + length s.now ≤ length out.old }
    ensures { out.new ≡ over_at at out.old s.now }
{
    for (k, x) in s.iter().enumerate() {
        out[at + k] = *x;
    }
}

// Writes words of 8 bytes each from `at` on; the rest stays.
pub fn put_words(out: &mut [u8], at: usize, words: &[u64])
    requires { at + 8 * length words.now ≤ length out.old }
    ensures { out.new ≡ over_at at out.old (all_bytes 8 words.now) }
{
    for (k, x) in words.iter().enumerate() {
        put_word(out, at + 8 * k, 8, *x);
    }
}
