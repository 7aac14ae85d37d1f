// Data types and their widths.
ghost use Rattle.std.specs.Prelude.{◌≡◌, ◌≤◌, ◌<◌, get_or};
ghost use Rattle.model.specs.Image.{tree_of, node_count, data_type_of, width, widths};
ghost use Rattle.model.specs.Bounds.{Laid};
ghost use Rattle.records.specs.Table.{type_by_code};

use super::{node_table, nodes};

// Data types by their place among the eleven, counted from 1; 0 is no data type.
pub const MT: u64 = 1;

pub const C1: u64 = 2;

pub const I4: u64 = 4;

pub const R4: u64 = 6;

pub const I8: u64 = 7;

pub const R8: u64 = 9;

// LK, a link, by its two bytes, the lower first.
pub const LINK: u64 = 0x4b4c;

// The data type whose two bytes are this number, the lower first; 0 for none.
pub fn by_code(code: u64) -> u64
    ensures { (result ≡ type_by_code code) × (result ≤ 11) }
{
    match code {
        0x544d => 1, // MT
        0x3143 => 2, // C1
        0x3142 => 3, // B1
        0x3449 => 4, // I4
        0x3455 => 5, // U4
        0x3452 => 6, // R4
        0x3849 => 7, // I8
        0x3855 => 8, // U8
        0x3852 => 9, // R8
        0x3458 => 10, // X4
        0x3858 => 11, // X8
        _ => 0,
    }
}

// The data type of node i: its place among the eleven, from 1, and 0 for any other.
pub fn data_type_of(image: &[u8], i: usize) -> u64
    requires { Laid image.now × (i < node_count image.now) }
    ensures { (result ≡ data_type_of (tree_of image.now) i) × (result ≤ 11) }
{
    nodes::data_type_of(node_table(image), i)
}

// The width of a data type in bytes.
pub fn width_of(data_type: u64) -> u64
    requires { data_type ≤ 11 }
    ensures { (result ≡ get_or widths data_type 0) × (result ≤ 16) }
{
    match data_type {
        0 => 0,
        1 => 0,
        2 => 1,
        3 => 1,
        4 => 4,
        5 => 4,
        6 => 4,
        7 => 8,
        8 => 8,
        9 => 8,
        10 => 8,
        _ => 16,
    }
}

// The width in bytes of what node i stores.
pub fn width_at(image: &[u8], i: usize) -> usize
    requires { Laid image.now × (i < node_count image.now) }
    ensures { (result ≡ width (tree_of image.now) i) × (result ≤ 16) }
{
    nodes::width_at(node_table(image), i)
}
