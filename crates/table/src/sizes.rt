// Rules 14 to 17: dimension counts, running sums and the product of dimensions.
ghost use Rattle.std.specs.Prelude.{◌≡◌, cond, not, ◌&&◌, ◌+◌, ◌*◌, ◌≤◌, ◌<◌, eqb, leb, length};
ghost use Rattle.model.specs.Image.{node, MT};
ghost use Rattle.model.specs.Records.{data_size_lawful};
ghost use Rattle.records.specs.Fields.{numbers_of};
ghost use Rattle.records.specs.Table.{records_of, HasRecord};
ghost use Rattle.table.specs.Groups.{is_within};

use super::is_within;
use records::{RecordNumbers, data_types, nodes};

const MAX_RANK: u64 = 12;

// Rule 14: whether a data type may have so many dimensions.
pub fn rank_lawful(data_type: u64, rank: u64) -> bool
    ensures { result ≡ cond (eqb data_type MT) (eqb rank 0) (is_within rank 1 12) }
{
    if data_type == data_types::MT {
        return rank == 0;
    }
    is_within(rank, 1, MAX_RANK)
}

// Rules 15 and 17: whether a part starts at the sum of those before it and ends within the total.
pub fn run_lawful(start: u64, sum: u64, size: u64, total: u64) -> bool
    requires { sum ≤ total }
    ensures { result ≡ (eqb start sum && leb (sum + size) total) }
{
    if start != sum {
        return false;
    }
    size <= total - sum
}

// Whether one dimension more is not 0 and keeps the product within the limit. Nothing is multiplied.
pub fn product_fits(m: u64, d: u64, limit: u64) -> bool
    ensures { result ≡ (not (eqb d 0) && leb (m * d) limit) }
{
    if d == 0 {
        return false;
    }
    if m == 0 {
        return true;
    }
    d <= limit / m
}

// Rule 16: whether no dimension of node i is 0 and their product in elements is the data length in bytes. `r` has the node's numbers; the
// dimension words follow `count` records.
pub fn data_size_lawful(table: &[u8], count: usize, i: usize, r: RecordNumbers) -> bool
    requires has_record { (HasRecord table.now i × ((i < count) × (count ≤ 4096))) × (r ≡ numbers_of (records_of table.now count) i) }
    requires i_in_bounds { 84 * count + 8 * ((node (records_of table.now count) i).first_word + (node (records_of table.now count) i).rank) ≤ length table.now }
    ensures { result ≡ data_size_lawful (records_of table.now count) i }
{
    let rank = r.rank as usize;
    let size = r.data_size;
    let mut m = nodes::width_at(table, i) as u64;
    for k in 0..rank {
        let d = nodes::dimension(table, count, i, k);
        if !product_fits(m, d, size) {
            return false;
        }
        m *= d;
    }
    m == size
}
