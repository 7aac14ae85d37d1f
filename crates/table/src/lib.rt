// The check of rules 1 to 18: header, node records, trailing words and bytes. It reads no data bytes.
#![tactic(auto)]

ghost use Rattle.std.specs.Prelude.{◌≡◌, ◌≤◌, length};
ghost use Rattle.model.specs.Records.{table_check, table_answer};
ghost use Rattle.model.specs.NameBytes.{name_bytes_answer};
ghost use Rattle.model.specs.Answers.{stage_tells, table_tells, count_tells};
ghost use Rattle.table.specs.Groups.{is_within};

mod header; // header.rt: rules 1 to 6
mod names; // names.rt: the name bytes that the comparison of siblings takes
mod siblings; // siblings.rt: rule 11, from node to node
mod sizes; // sizes.rt: rules 14 to 17
mod stages; // stages.rt: rules 7 to 18, node by node
mod tree; // tree.rt: rules 7 and 8

pub use model::reject;
use model::{Rejection, Table};
use records::{Header, TableSize};
pub use sizes::{product_fits, rank_lawful};
pub use stages::records_stage;

// Whether x is one of low to high.
pub fn is_within(x: u64, low: u64, high: u64) -> bool
    ensures { result ≡ is_within x low high }
{
    if x < low {
        return false;
    }
    x <= high
}

// Rules 1 to 18 as one stage, in a lent table for rule 11. The answer does not depend on what it holds; zeros are fastest.
pub fn table_stage_with(image: &[u8], seen: &mut [u16]) -> Result<(), Rejection>
    requires { 16384 ≤ length seen.old }
    ensures { stage_tells result ≡ table_check image.now }
{
    header::header_stage(image)?;
    records_stage(records::node_table(image), TableSize::read(image), seen)
}

// Rules 1 to 18 as one stage.
pub fn table_stage(image: &[u8]) -> Result<(), Rejection>
    ensures { stage_tells result ≡ table_check image.now }
{
    let mut seen: [u16; 16384] = [0; 16384];
    table_stage_with(image, &mut seen)
}

// Rules 1 to 18: the first that is broken, or how many nodes, dimension words and data bytes the image has.
pub fn check_table(image: &[u8]) -> Result<Table, Rejection>
    ensures { table_tells result ≡ table_answer image.now }
{
    table_stage(image)?;
    let h = Header::read(image);
    Ok(Table {
        nodes: h.node_count,
        dimensions: h.word_count,
        bytes: h.data_length,
    })
}

// Rules 1 to 18: the first that is broken, or how many name bytes are compared where each two siblings are, up to the first byte
// that differs.
pub fn name_bytes(image: &[u8]) -> Result<u64, Rejection>
    ensures { count_tells result ≡ name_bytes_answer image.now }
{
    let mut lent: [u16; 16384] = [0; 16384];
    table_stage_with(image, &mut lent)?;
    let size = TableSize::read(image);
    Ok(names::all_name_bytes(records::node_table(image), size.nodes, &mut lent))
}
