// The nodes of a table: its bytes start with the node records, and the dimension words follow them.
ghost use Rattle.std.specs.Prelude.{◌≡◌, [], ◌∷◌, ◌+◌, ◌*◌, ◌≤◌, ◌<◌, ◌%◌, ◌/◌, length, get_or};
ghost use Rattle.model.specs.Image.{node, parent, data_type_of, width, dimensions};
ghost use Rattle.model.specs.Records.{link};
ghost use Rattle.records.specs.Fields.{numbers_of, record_of};
ghost use Rattle.records.specs.Table.{records_of, all_records, HasRecord};

use super::{Record, RecordNumbers, data_types, fields};

// The numbers of node i.
pub fn numbers(table: &[u8], i: usize) -> RecordNumbers
    requires { HasRecord table.now i }
    ensures { result ≡ numbers_of (all_records table.now) i }
{
    let p = Record::SIZE * i;
    RecordNumbers {
        rank: words::u16_at(table, p + Record::RANK),
        first_word: words::u32_at(table, p + Record::FIRST_WORD),
        parent: words::u32_at(table, p + Record::PARENT),
        data_at: words::u32_at(table, p + Record::DATA_AT),
        data_size: words::u32_at(table, p + Record::DATA_SIZE),
    }
}

// The record of node i.
pub fn record(table: &[u8], i: usize) -> Record
    requires { HasRecord table.now i }
    ensures { result ≡ record_of (all_records table.now) i }
{
    let p = Record::SIZE * i;
    let name = fields::text_at(table, p + Record::NAME);
    let label = fields::text_at(table, p + Record::LABEL);
    let data_type = fields::pair_at(table, p + Record::DATA_TYPE);
    let numbers = numbers(table, i);
    Record {
        name,
        label,
        data_type,
        rank: numbers.rank,
        first_word: numbers.first_word,
        parent: numbers.parent,
        data_at: numbers.data_at,
        data_size: numbers.data_size,
    }
}

// The parent of node i.
pub fn parent_of(table: &[u8], i: usize) -> usize
    requires { HasRecord table.now i }
    ensures { (result ≡ parent (all_records table.now) i) × (result < 4294967296) }
{
    words::u32_at(table, Record::SIZE * i + Record::PARENT) as usize
}

// The two bytes of node i's data type as one number.
fn type_code(table: &[u8], i: usize) -> u64
    requires { HasRecord table.now i }
    ensures { ((node (all_records table.now) i).data_type ≡ result % 256 ∷ result / 256 ∷ []) × (result < 65536) }
{
    let p = Record::SIZE * i + Record::DATA_TYPE;
    words::byte_at(table, p) + 256 * words::byte_at(table, p + 1)
}

// The data type of node i: its place among the eleven, from 1, and 0 for any other.
pub fn data_type_of(table: &[u8], i: usize) -> u64
    requires { HasRecord table.now i }
    ensures { (result ≡ data_type_of (all_records table.now) i) × (result ≤ 11) }
{
    data_types::by_code(type_code(table, i))
}

// Whether node i's data type is LK.
pub fn is_link(table: &[u8], i: usize) -> bool
    requires { HasRecord table.now i }
    ensures { result ≡ link (all_records table.now) i }
{
    type_code(table, i) == data_types::LINK
}

// The width in bytes of what node i stores.
pub fn width_at(table: &[u8], i: usize) -> usize
    requires { HasRecord table.now i }
    ensures { (result ≡ width (all_records table.now) i) × (result ≤ 16) }
{
    data_types::width_of(data_type_of(table, i)) as usize
}

// Dimension k of node i, where the words follow `nodes` records.
pub fn dimension(table: &[u8], nodes: usize, i: usize, k: usize) -> u64
    requires has_record { HasRecord table.now i × ((i < nodes) × (nodes ≤ 4096)) }
    requires k_bound { k < (node (records_of table.now nodes) i).rank }
    requires i_in_bounds { 84 * nodes + 8 * ((node (records_of table.now nodes) i).first_word + (node (records_of table.now nodes) i).rank) ≤ length table.now }
    ensures { result ≡ get_or (dimensions (records_of table.now nodes) i) k 0 }
{
    let first = words::u32_at(table, Record::SIZE * i + Record::FIRST_WORD) as usize;
    words::u64_at(table, Record::SIZE * nodes + 8 * first + 8 * k)
}
