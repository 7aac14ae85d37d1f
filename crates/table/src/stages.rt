// Rules 7 to 18, node by node, the lowest rule first.
ghost use Rattle.std.specs.Prelude.{◌≡◌, ◌&&◌, ◌≤◌, ◌<◌, eqb, length};
ghost use Rattle.model.specs.Rules.{check, ◌then◌};
ghost use Rattle.model.specs.Image.{node};
ghost use Rattle.model.specs.Records.{record_check_at, record_check, trailing_check};
ghost use Rattle.model.specs.Answers.{stage_tells};
ghost use Rattle.records.specs.Fields.{numbers_of};
ghost use Rattle.records.specs.Table.{table_tree, all_records, HasRecord, LawfulBefore, TableLaid, TableTo};
ghost use Rattle.texts.specs.Keys.{key_at};
ghost use Rattle.texts.specs.Links.{NoneLinked};
ghost use Rattle.table.specs.Groups.{place_rules, text_rules, type_rules, size_rules};
ghost use Rattle.table.specs.Siblings.{Names, NamesAt};
ghost use Rattle.table.specs.Sums.{Sums};

use super::siblings::Known;
use super::{reject, siblings, sizes, tree};
use model::Rejection;
use records::{RecordNumbers, TableSize, nodes};
use texts::links;

// Rules 7 and 8 at node i.
fn place_stage(table: &[u8], i: usize) -> Result<(), Rejection>
    requires { HasRecord table.now i × LawfulBefore table.now i }
    ensures { stage_tells result ≡ check i (place_rules (all_records table.now) i) }
{
    if !tree::parent_lawful(table, i) {
        return reject(7, i);
    }
    if tree::is_too_deep(table, i) {
        return reject(8, i);
    }
    Ok(())
}

// Rules 9 to 11 at node i, with its key and what is known of the names before it.
fn text_stage(
    table: &[u8],
    i: usize,
    key: usize,
    seen: &[u16],
    known: Known,
) -> Result<(), Rejection>
    requires has_record { HasRecord table.now i }
    requires key_value { (key ≡ key_at (all_records table.now) i) × NamesAt table.now i known seen.now }
    ensures { stage_tells result ≡ check i (text_rules (all_records table.now) i) }
{
    if !texts::name_lawful(table, i) {
        return reject(9, i);
    }
    if !texts::label_lawful(table, i) {
        return reject(10, i);
    }
    if siblings::is_taken(table, i, key, seen, known) {
        return reject(11, i);
    }
    Ok(())
}

// Rules 12 to 14 at node i, with its dimension count.
fn type_stage(table: &[u8], i: usize, rank: u64) -> Result<(), Rejection>
    requires { HasRecord table.now i × (rank ≡ (node (all_records table.now) i).rank) }
    ensures { stage_tells result ≡ check i (type_rules (all_records table.now) i) }
{
    if nodes::is_link(table, i) {
        return reject(12, i);
    }
    let data_type = nodes::data_type_of(table, i);
    if data_type == 0 {
        return reject(13, i);
    }
    if !sizes::rank_lawful(data_type, rank) {
        return reject(14, i);
    }
    Ok(())
}

// Rules 15 to 17 at node i, with its numbers, and the words and bytes of the nodes before it.
fn size_stage(
    table: &[u8],
    size: TableSize,
    i: usize,
    r: RecordNumbers,
    words: u64,
    bytes: u64,
) -> Result<(), Rejection>
    requires table_laid { (TableLaid table.now size × (i < size.nodes)) × (r ≡ numbers_of (table_tree table.now size) i) }
    requires sums { Sums table.now size i words bytes }
    ensures { stage_tells result ≡ check i (size_rules (table_tree table.now size) i) }
{
    if !sizes::run_lawful(r.first_word, words, r.rank, size.words) {
        return reject(15, i);
    }
    if !sizes::data_size_lawful(table, size.nodes, i, r) {
        return reject(16, i);
    }
    if !sizes::run_lawful(r.data_at, bytes, r.data_size, size.bytes) {
        return reject(17, i);
    }
    Ok(())
}

// Rules 7 to 17 at node i, with its numbers and its key, and the words, the bytes and the names of the nodes before it.
fn record_stage(
    table: &[u8],
    size: TableSize,
    i: usize,
    r: RecordNumbers,
    words: u64,
    bytes: u64,
    key: usize,
    seen: &[u16],
    known: Known,
) -> Result<(), Rejection>
    requires table_to { (TableTo table.now size i × Sums table.now size i words bytes) × (r ≡ numbers_of (table_tree table.now size) i) }
    requires key_value { (key ≡ key_at (all_records table.now) i) × Names table.now size.nodes i known seen.now }
    ensures { stage_tells result ≡ record_check_at (table_tree table.now size) i }
{
    place_stage(table, i)?;
    text_stage(table, i, key, seen, known)?;
    type_stage(table, i, r.rank)?;
    size_stage(table, size, i, r, words, bytes)
}

// Whether the sums over all nodes are the totals.
fn sums_match(words: u64, dimensions: u64, bytes: u64, area: u64) -> bool
    ensures { result ≡ (eqb words dimensions && eqb bytes area) }
{
    if words != dimensions {
        return false;
    }
    bytes == area
}

// Rules 7 to 18 over the bytes of a table: 7 to 17 at each node, then 18. In the lent table no node is linked yet.
fn node_stages(table: &[u8], size: TableSize, seen: &mut [u16]) -> Result<(), Rejection>
    requires { TableLaid table.now size × ((16384 ≤ length seen.old) × NoneLinked seen.old) }
    ensures { stage_tells result
        ≡ (record_check (table_tree table.now size) then trailing_check (table_tree table.now size)) }
{
    let count = size.nodes;
    let mut words: u64 = 0;
    let mut bytes: u64 = 0;
    let mut known = Known::ByKeys(siblings::SEARCHES);
    for i in 0..count {
        let key = texts::name_key(table, i);
        let r = nodes::numbers(table, i);
        record_stage(table, size, i, r, words, bytes, key, seen, known)?;
        words += r.rank;
        bytes += r.data_size;
        known = siblings::next(known, table, count, i, key, seen);
    }
    if !sums_match(words, size.words, bytes, size.bytes) {
        return reject(18, count);
    }
    Ok(())
}

// The same with a lent table for rule 11, whatever it holds.
pub fn records_stage(table: &[u8], size: TableSize, seen: &mut [u16]) -> Result<(), Rejection>
    requires { TableLaid table.now size × (16384 ≤ length seen.old) }
    ensures { stage_tells result
        ≡ (record_check (table_tree table.now size) then trailing_check (table_tree table.now size)) }
{
    links::clear(seen);
    node_stages(table, size, seen)
}
