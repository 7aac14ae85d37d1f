// Rows of numbers of 4 or 8 bytes each in an image: start offsets, connectivities.
#![tactic(auto)]

ghost use Rattle.std.specs.Prelude.{◌≡◌, ◌-◌, ◌<◌, T};
ghost use Rattle.model.specs.Lists.{seek_from};
ghost use Rattle.model.specs.Bytes.{half, negative, magnitude, signed};
ghost use Rattle.model.specs.Corner.{inside, number_at};
ghost use Rattle.words.specs.Width.{is_width};
ghost use Rattle.rows.specs.Rows.{Numbers, ends_after_at};

// n numbers of `width` bytes each, from the byte `at` on.
#[derive(Clone, Copy)]
pub struct Row {
    pub at: usize,
    pub width: usize,
    pub n: usize,
}

// Whether the width is 4 or 8 and `count` numbers lie inside the image.
pub fn inside(image: &[u8], at: u64, width: u64, count: u64) -> bool
    ensures { result ≡ inside image.now at width count }
{
    let length = image.len() as u64;
    if length < at {
        return false;
    }
    if width == 4 {
        return count <= (length - at) / 4;
    }
    if width == 8 {
        return count <= (length - at) / 8;
    }
    false
}

// Half of the bit patterns of a width: the first that stands for a negative number.
pub fn half_of(width: usize) -> u64
    requires { T (is_width width) }
    ensures { result ≡ half width }
{
    if width == 4 {
        2147483648
    } else {
        9223372036854775808
    }
}

// Number k, counted from 0, as its bits.
pub fn number_at(image: &[u8], row: Row, k: usize) -> u64
    requires { Numbers image.now row.at row.width row.n × (k < row.n) }
    ensures { result ≡ number_at image.now row.at row.width k }
{
    let at = row.at;
    let width = row.width;
    if width == 4 {
        words::u32_at(image, at + 4 * k)
    } else {
        words::u64_at(image, at + 8 * k)
    }
}

// Number k, signed.
pub fn signed_number_at(image: &[u8], row: Row, k: usize) -> i64
    requires { Numbers image.now row.at row.width row.n × (k < row.n) }
    ensures { result ≡ signed row.width (number_at image.now row.at row.width k) }
{
    let at = row.at;
    let width = row.width;
    words::signed_at(image, at + width * k, width)
}

// Is number k negative?
pub fn is_negative(image: &[u8], row: Row, k: usize) -> bool
    requires { Numbers image.now row.at row.width row.n × (k < row.n) }
    ensures { result ≡ negative row.width (number_at image.now row.at row.width k) }
{
    let half = half_of(row.width);
    half <= number_at(image, row, k)
}

// The magnitude of number k, a signed reference of 32 or 64 bits; of the smallest number too: nothing is negated.
pub fn magnitude_at(image: &[u8], row: Row, k: usize) -> u64
    requires { Numbers image.now row.at row.width row.n × (k < row.n) }
    ensures { result ≡ magnitude row.width (number_at image.now row.at row.width k) }
{
    let at = row.at;
    let width = row.width;
    if width == 4 {
        u64::from(words::i32_at(image, at + 4 * k).unsigned_abs())
    } else {
        words::i64_at(image, at + 8 * k).unsigned_abs()
    }
}

// Of a row of start offsets, one more than there are elements: the first element that ends after entry k; how many there are where none does.
// A number where none does too, since the model's `element_holding` adds it to the section's first element whatever k is.
pub fn ends_after(image: &[u8], row: Row, k: u64) -> usize
    requires { Numbers image.now row.at row.width row.n × (0 < row.n) }
    ensures { (result ≡ seek_from (ends_after_at image.now row k) (row.n - 1) 0) × (result < row.n) }
{
    let n = row.n - 1;
    (0..n)
        .find(|j| k < number_at(image, row, *j + 1))
        .unwrap_or(n)
}
