// The name bytes that the comparison of all siblings takes. Each node is linked with the sibling before it, so that no other pair is looked at.
ghost use Rattle.std.specs.Prelude.{◌≡◌, ◌+◌, ◌*◌, ◌≤◌, ◌<◌, length};
ghost use Rattle.model.specs.Lists.{sum_before};
ghost use Rattle.model.specs.Image.{parent};
ghost use Rattle.model.specs.NameBytes.{bytes_with_earlier};
ghost use Rattle.records.specs.Table.{all_records, HasRecord, LawfulBefore};
ghost use Rattle.texts.specs.Links.{Linked};

use records::nodes;
use texts::links;

// Links node i with the sibling before it. The root is nobody's child.
fn link(table: &[u8], siblings: &mut [u16], i: usize)
    requires has_record { (HasRecord table.now i × LawfulBefore table.now (i + 1)) × (8192 ≤ length siblings.old) }
    requires linked { Linked (parent (all_records table.now)) i siblings.old }
    ensures { Linked (parent (all_records table.now)) (i + 1) siblings.new }
{
    if i == 0 {
        siblings[links::BEFORE] = 0;
        return;
    }
    links::add(siblings, i, nodes::parent_of(table, i));
}

// The name bytes compared of node i and the siblings before it.
fn bytes_with_earlier(table: &[u8], siblings: &[u16], i: usize) -> u64
    requires has_record { HasRecord table.now i × (8192 ≤ length siblings.now) }
    requires linked { Linked (parent (all_records table.now)) (i + 1) siblings.now }
    ensures { (result ≡ bytes_with_earlier (all_records table.now) i) × (result ≤ 33 * i) }
{
    let mut sum: u64 = 0;
    let mut j = siblings[links::BEFORE + i] as usize;
    while 0 < j {
        sum += texts::name_difference(table, i, j - 1) as u64;
        j = siblings[links::BEFORE + (j - 1)] as usize;
    }
    sum
}

// The name bytes compared of all pairs of siblings among `count` nodes, each pair once. The lent table is overwritten, whatever it holds.
pub fn all_name_bytes(table: &[u8], count: usize, siblings: &mut [u16]) -> u64
    requires count_bound { ((count ≤ 4096) × (84 * count ≤ length table.now)) × LawfulBefore table.now count }
    requires in_bounds { 8192 ≤ length siblings.old }
    ensures { result ≡ sum_before (bytes_with_earlier (all_records table.now)) count }
{
    links::clear(siblings);
    let mut sum: u64 = 0;
    for i in 0..count {
        link(table, siblings, i);
        sum += bytes_with_earlier(table, siblings, i);
    }
    sum
}
