// A column of parents: its numbers are cells of a zone, or 0 where that is allowed.
ghost use Rattle.std.specs.Prelude.{◌≡◌, true, false, ◌&&◌, ◌+◌, ◌≤◌, ◌<◌, leb, MatchOption};
ghost use Rattle.model.specs.Lists.{every_from};
ghost use Rattle.model.specs.Image.{tree_of};
ghost use Rattle.model.specs.Values.{max_number};
ghost use Rattle.rows.specs.Rows.{Numbers};
ghost use Rattle.ranges.specs.Tables.{key, in_ranges, is_within, Ordered, Covered};
ghost use Rattle.section_data.specs.Passing.{Passed};
ghost use Rattle.section_data.specs.Ranges.{Cells};
ghost use Rattle.parents.specs.Parents.{is_known, known_at, parent_at};

use ranges::Interval;
use rows::Row;

// Is x 0 where that is allowed, or in an interval?
fn is_known(interval: Interval, none: bool, x: u64) -> bool
    requires { interval.low + interval.size ≤ 4294967296 }
    ensures { result ≡ is_known interval none x }
{
    (none && x == 0) || ranges::within(interval, x)
}

// The first number of a row, from k on, that is no allowed 0 and in no interval; how many there are where each is one, since the scan goes on from the answer
// to the row's end.
fn first_unknown(image: &[u8], row: Row, k: usize, interval: Interval, none: bool) -> usize
    requires numbers { Numbers image.now row.at row.width row.n × (k ≤ row.n) }
    requires size_bound { interval.low + interval.size ≤ 4294967296 }
    ensures passed { Passed (known_at image.now row interval none) row.n k result }
    ensures result_value { result < row.n → known_at image.now row interval none result ≡ false }
{
    for j in k..row.n {
        if !is_known(interval, none, rows::number_at(image, row, j)) {
            return j;
        }
    }
    row.n
}

// The numbers of zone z around x that one of n entries holds, where x is in a range and no greater than 2,147,483,647.
fn interval_of(firsts: &[u64], reach: &[u64], n: usize, z: usize, x: u64) -> Option<Interval>
    requires { Ordered firsts.now reach.now n × (z < 4096) }
    ensures { MatchOption result ((leb x max_number && in_ranges firsts.now reach.now n (key z x)) ≡ false)
        (λ i. Covered firsts.now reach.now n z i × (is_within i x ≡ true) × (x ≤ max_number)) }
{
    if types::MAX_NUMBER < x {
        return None;
    }
    ranges::interval_around(firsts, reach, n, z, x)
}

// Is each number of a row a cell of zone z, or 0 where that is allowed? The numbers around the last one that was looked up are known.
pub fn are_cells(
    image: &[u8],
    z: usize,
    row: Row,
    none: bool,
    firsts: &[u64],
    reach: &[u64],
    cells: usize,
) -> bool
    requires numbers { Numbers image.now row.at row.width row.n × (z < 4096) }
    requires cells { Cells (tree_of image.now) firsts.now reach.now cells }
    ensures { result ≡ every_from (parent_at (tree_of image.now) z none image.now row) row.n 0 }
{
    let n = row.n;
    let mut k = first_unknown(image, row, 0, Interval { low: 0, size: 0 }, none);
    // `while`: each round goes on behind the numbers that the last interval held
    while k < n {
        let x = rows::number_at(image, row, k);
        let Some(known) = interval_of(firsts, reach, cells, z, x) else {
            return false;
        };
        k = first_unknown(image, row, k + 1, known, none);
    }
    true
}
