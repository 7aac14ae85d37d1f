// The header, the node records, data types, dimension words and stored numbers, read from the image's bytes. A node is read from the bytes of a table
// (`nodes`), which an image has after its header.
#![tactic(auto)]

ghost use Rattle.std.specs.Prelude.{◌≡◌, ◌+◌, ◌≤◌, ◌<◌, length, drop};
ghost use Rattle.model.specs.Image.{tree_of, node_count, record_at, parent};
ghost use Rattle.model.specs.Bounds.{Laid};
ghost use Rattle.records.specs.Fields.{header_of, numbers_of, record_of};
ghost use Rattle.records.specs.Table.{size_of};

mod data; // data.rt: dimension words and stored numbers
mod fields; // fields.rt: the fields of a record that are bytes
pub mod nodes; // nodes.rt: the nodes of a table, by its bytes
pub mod data_types; // data_types.rt: data types by their place among the eleven, and their widths

pub use data::{data_start, dimension, number};
pub use data_types::{data_type_of, width_at, width_of};

// The header's eight words.
#[derive(Clone, Copy)]
pub struct Header {
    pub form: u64,
    pub total_length: u64,
    pub node_count: u64,
    pub record_offset: u64,
    pub dimension_offset: u64,
    pub word_count: u64,
    pub data_offset: u64,
    pub data_length: u64,
}

impl Header {
    pub const SIZE: usize = 32;

    pub const FORM: usize = 0;

    pub const TOTAL_LENGTH: usize = 4;

    pub const NODE_COUNT: usize = 8;

    pub const RECORD_OFFSET: usize = 12;

    pub const DIMENSION_OFFSET: usize = 16;

    pub const WORD_COUNT: usize = 20;

    pub const DATA_OFFSET: usize = 24;

    pub const DATA_LENGTH: usize = 28;

    // The header of an image that has one.
    pub fn read(image: &[u8]) -> Header
        requires { 32 ≤ length image.now }
        ensures { result ≡ header_of image.now }
    {
        Header {
            form: words::u32_at(image, Header::FORM),
            total_length: words::u32_at(image, Header::TOTAL_LENGTH),
            node_count: words::u32_at(image, Header::NODE_COUNT),
            record_offset: words::u32_at(image, Header::RECORD_OFFSET),
            dimension_offset: words::u32_at(image, Header::DIMENSION_OFFSET),
            word_count: words::u32_at(image, Header::WORD_COUNT),
            data_offset: words::u32_at(image, Header::DATA_OFFSET),
            data_length: words::u32_at(image, Header::DATA_LENGTH),
        }
    }
}

// How many nodes and dimension words a table has, and how many data bytes belong to it.
#[derive(Clone, Copy)]
pub struct TableSize {
    pub nodes: usize,
    pub words: u64,
    pub bytes: u64,
}

impl TableSize {
    // The size of the table of an image that has a header.
    pub fn read(image: &[u8]) -> TableSize
        requires { 32 ≤ length image.now }
        ensures { result ≡ size_of image.now }
    {
        TableSize {
            nodes: words::u32_at(image, Header::NODE_COUNT) as usize,
            words: words::u32_at(image, Header::WORD_COUNT),
            bytes: words::u32_at(image, Header::DATA_LENGTH),
        }
    }
}

// The bytes of an image's table: all after its header.
pub fn node_table(image: &[u8]) -> &[u8]
    requires { 32 ≤ length image.now }
    ensures { (result.now ≡ drop 32 image.now) × (length result.now + 32 ≡ length image.now) }
{
    let from = Header::SIZE;
    &image[from..]
}

// The numbers of a node record, for readers that leave its texts in place.
#[derive(Clone, Copy)]
pub struct RecordNumbers {
    pub rank: u64,
    pub first_word: u64,
    pub parent: u64,
    pub data_at: u64,
    pub data_size: u64,
}

impl RecordNumbers {
    // The numbers of node i.
    pub fn read(image: &[u8], i: usize) -> RecordNumbers
        requires { Laid image.now × (i < node_count image.now) }
        ensures { result ≡ numbers_of (tree_of image.now) i }
    {
        nodes::numbers(node_table(image), i)
    }
}

// A node record: name, label and data type as their bytes, and its numbers.
#[derive(Clone, Copy)]
pub struct Record {
    pub name: [u8; 32],
    pub label: [u8; 32],
    pub data_type: [u8; 2],
    pub rank: u64,
    pub first_word: u64,
    pub parent: u64,
    pub data_at: u64,
    pub data_size: u64,
}

impl Record {
    pub const SIZE: usize = 84;

    pub const NAME: usize = 0;

    pub const LABEL: usize = 32;

    pub const TEXT_SIZE: usize = 32;

    pub const DATA_TYPE: usize = 64;

    pub const RANK: usize = 66;

    pub const FIRST_WORD: usize = 68;

    pub const PARENT: usize = 72;

    pub const DATA_AT: usize = 76;

    pub const DATA_SIZE: usize = 80;

    // Where the record of node i starts.
    pub fn at(i: usize) -> usize
        requires { i < 4096 }
        ensures { result ≡ record_at i }
    {
        Header::SIZE + Record::SIZE * i
    }

    // The record of node i.
    pub fn read(image: &[u8], i: usize) -> Record
        requires { Laid image.now × (i < node_count image.now) }
        ensures { result ≡ record_of (tree_of image.now) i }
    {
        nodes::record(node_table(image), i)
    }
}

// The parent of node i.
pub fn parent_of(image: &[u8], i: usize) -> usize
    requires { Laid image.now × (i < node_count image.now) }
    ensures { (result ≡ parent (tree_of image.now) i) × (result < 4294967296) }
{
    nodes::parent_of(node_table(image), i)
}
