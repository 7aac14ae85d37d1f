// The values of a node's array: whole numbers, singles and doubles, their bits unchanged.
#![tactic(auto)]

ghost use Rattle.std.specs.Prelude.{◌≡◌, true, ◌+◌, ◌*◌, ◌≤◌, ◌<◌, T};
ghost use Rattle.std.specs.Float.{binary32, binary64};
ghost use Rattle.std.specs.Float.Ieee.{nan_bits};
ghost use Rattle.model.specs.Lists.{among};
ghost use Rattle.model.specs.Bytes.{signed};
ghost use Rattle.model.specs.Image.{tree_of, node_count, node, dimensions, data_type_of, width, number};
ghost use Rattle.model.specs.Records.{product};
ghost use Rattle.model.specs.ArrayValue.{single, double, value_at, value_answer};
ghost use Rattle.model.specs.Answers.{value_of, value_tells, NanCase, NanCases};
ghost use Rattle.model.specs.Given.{Sound};
ghost use Rattle.words.specs.Width.{is_width};
ghost use Rattle.array_values.specs.Readable.{readable};

use model::{ArrayValue, Rejection};
use records::{Header, RecordNumbers, data_types};

// Singles and doubles have functions of their own, here and below: a trait over both would be longer.

// Whether the bits of a single are a NaN's.
fn nan_single(bits: u32) -> bool
    ensures { result ≡ nan_bits binary32 bits }
{
    0x7f80_0000 < bits % 0x8000_0000
}

// Whether the bits of a double are a NaN's.
fn nan_double(bits: u64) -> bool
    ensures { result ≡ nan_bits binary64 bits }
{
    0x7ff0_0000_0000_0000 < bits % 0x8000_0000_0000_0000
}

// The single with these bits; the bits themselves where they are a NaN's.
fn single_of(bits: u32) -> ArrayValue
    ensures { (value_of result ≡ single bits) × NanCase result }
{
    if nan_single(bits) {
        return ArrayValue::SingleNan(bits);
    }
    ArrayValue::Single(f32::from_bits(bits))
}

// The double with these bits; the bits themselves where they are a NaN's.
fn double_of(bits: u64) -> ArrayValue
    ensures { (value_of result ≡ double bits) × NanCase result }
{
    if nan_double(bits) {
        return ArrayValue::DoubleNan(bits);
    }
    ArrayValue::Double(f64::from_bits(bits))
}

// Rule 47: whether values of a data type are handed out.
fn is_readable(data_type: u64) -> bool
    ensures { result ≡ among data_type readable }
{
    if data_type == data_types::I4 {
        return true;
    }
    if data_type == data_types::I8 {
        return true;
    }
    if data_type == data_types::R4 {
        return true;
    }
    data_type == data_types::R8
}

// How many values node i has; `wide` is its width, 4 or 8.
fn array_length(image: &[u8], i: usize, wide: u64) -> u64
    requires { (Sound image.now × (i < node_count image.now)) × ((T (is_width wide)) × (wide ≡ width (tree_of image.now) i)) }
    ensures { result ≡ product (dimensions (tree_of image.now) i) }
{
    let size = RecordNumbers::read(image, i).data_size;
    if wide == 4 { size / 4 } else { size / 8 }
}

// Value k of node i as a signed number, counted from 0; `wide` is the node's width, 4 or 8.
fn whole_at(image: &[u8], i: usize, k: usize, wide: usize) -> i64
    requires sound { (Sound image.now × (i < node_count image.now)) × ((T (is_width wide)) × (wide ≡ width (tree_of image.now) i)) }
    requires wide_bound { wide * k + wide ≤ (node (tree_of image.now) i).data_size }
    ensures { result ≡ signed (width (tree_of image.now) i) (number (tree_of image.now) i k) }
{
    words::signed_at(image, records::data_start(image, i) + wide * k, wide)
}

// Value k of node i, counted from 0; `data_type` is the node's, one whose values are handed out.
fn value_at(image: &[u8], i: usize, k: usize, data_type: u64) -> ArrayValue
    requires sound { (Sound image.now × (i < node_count image.now)) × ((among data_type readable ≡ true) × (data_type ≡ data_type_of (tree_of image.now) i)) }
    requires k_bound { k < product (dimensions (tree_of image.now) i) }
    ensures { (value_of result ≡ value_at (tree_of image.now) i k) × NanCase result }
{
    if data_type == data_types::R4 {
        return single_of(records::number(image, i, k, 4) as u32);
    }
    if data_type == data_types::R8 {
        return double_of(records::number(image, i, k, 8));
    }
    let wide = records::width_of(data_type) as usize;
    ArrayValue::Whole(whole_at(image, i, k, wide))
}

// Value k of node i, counted from 1: rule 47, then 42, then the value.
fn node_value(image: &[u8], i: usize, k: u64) -> Result<ArrayValue, Rejection>
    requires { Sound image.now × (i < node_count image.now) }
    ensures { (value_tells result ≡ value_answer image.now i k) × NanCases result }
{
    let data_type = records::data_type_of(image, i);
    if !is_readable(data_type) {
        return Err(Rejection::at(47, 0));
    }
    if k < 1 {
        return Err(Rejection::at(42, 0));
    }
    if array_length(image, i, records::width_of(data_type)) < k {
        return Err(Rejection::at(42, 0));
    }
    Ok(value_at(image, i, (k - 1) as usize, data_type))
}

// Value k of a node of an image in which rules 1 to 18 hold: rule 40, then 47 and 42, then the value.
fn sound_value(image: &[u8], node: u64, k: u64) -> Result<ArrayValue, Rejection>
    requires { Sound image.now }
    ensures { (value_tells result ≡ value_answer image.now node k) × NanCases result }
{
    let count = words::u32_at(image, Header::NODE_COUNT);
    if count <= node {
        return Err(Rejection::at(40, 0));
    }
    node_value(image, node as usize, k)
}

// Value k of a node's array, counted from 1: rules 1 to 18, then 40, 47 and 42, then the value.
pub fn array_value(image: &[u8], node: u64, k: u64) -> Result<ArrayValue, Rejection>
    ensures { (value_tells result ≡ value_answer image.now node k) × NanCases result }
{
    table::table_stage(image)?;
    sound_value(image, node, k)
}
