// Ranges of numbers in two tables, in ascending order of their first numbers, found by halving; ranges may overlap.
// Entry j begins with firsts[j]; reach[j] is the greatest last number of the entries up to j.
#![tactic(auto)]

ghost use Rattle.std.specs.Prelude.{◌≡◌, ℕ, suc, ◌+◌, ◌-◌, ◌<◌, ◌≤◌, min, max, ◌&&◌, ◌∷◌, length, if◌then◌else◌, nat_le, nat_lt, slice_index};
ghost use Rattle.model.specs.Lists.{some_from};
ghost use Rattle.ranges.specs.Tables.{key, meets_at, holds, Found, Firsts, Ordered, Begun, Raised, Placed, Inserted, is_within, Around};

pub mod search_tree; // search_tree.rt: guesses of the entries that hold numbers

use std::num::wrapping_sub_u64;

// The number of an element with its zone, so that one table serves all zones of an image.
pub fn key(zone: usize, number: u64) -> u64
    requires { (zone < 4096) × (number < 4294967296) }
    ensures { (result ≡ key zone number) × (result < 17592186044416) }
{
    4294967296 * zone as u64 + number
}

// The greater of two numbers.
fn greater(x: u64, y: u64) -> u64
    ensures { result ≡ max x y }
{
    if x < y { y } else { x }
}

// The greater of a number and the entry before k; the number where there is no entry before.
fn raised(table: &[u64], k: usize, least: u64) -> u64
    requires { k ≤ length table.now }
    ensures { result ≡ max (slice_index (0 ∷ table.now) k) least }
{
    if k == 0 {
        return least;
    }
    greater(table[k - 1], least)
}

// Raises the entries from a place to n that are below `least` to it. They rise, so that the first that is not below ends it.
fn raise(table: &mut [u64], n: usize, place: usize, least: u64)
    requires { (n ≤ length table.old) × ((i : ℕ) → place ≤ i → suc i < n → slice_index table.old i ≤ slice_index table.old (suc i)) }
    ensures { Raised least table.old table.new n place }
{
    for k in place..n {
        if least <= table[k] {
            return;
        }
        table[k] = least;
    }
}

// Puts x at a place among n entries, those from there on moved up by one.
pub fn put(table: &mut [u64], n: usize, place: usize, x: u64)
    requires { (place ≤ n) × (n < length table.old) }
    ensures { Placed x table.old table.new n place }
{
    table.copy_within(place..n, place + 1);
    table[place] = x;
}

// 1 where x is no greater than y, else 0: the carry of a difference, since a branch on numbers in no order is foreseen half of the time.
fn at_most(x: u64, y: u64) -> usize
    requires { (x < 9223372036854775808) × (y < 9223372036854775808) }
    ensures { (result ≡ (if nat_le x y then 1 else 0)) × (result ≤ 1) }
{
    ((y + 9223372036854775808 - x) >> 63) as usize
}

// How many of n entries begin no later than f, by halving: not by `partition_point`, which branches on each number that it asks.
fn begun(firsts: &[u64], n: usize, f: u64) -> usize
    requires { Firsts firsts.now n × (f < 9223372036854775808) }
    ensures { Begun firsts.now n f result 0 }
{
    let mut from: usize = 0;
    let mut left = n;
    while 0 < left {
        let half = left - left / 2;
        from += half * at_most(firsts[from + half - 1], f);
        left -= half;
    }
    from
}

// Puts the range from first to last among n and answers its place, behind those that begin no later.
pub fn insert(firsts: &mut [u64], reach: &mut [u64], n: usize, first: u64, last: u64) -> usize
    requires ordered { Ordered firsts.old reach.old n }
    requires n_in_bounds { (n < length firsts.old) × (n < length reach.old) × (first < 9223372036854775808) }
    ensures { Inserted firsts.old reach.old n first last firsts.new reach.new result }
{
    let place = begun(firsts, n, first);
    put(firsts, n, place, first);
    let here = raised(reach, place, last);
    put(reach, n, place, here);
    raise(reach, n + 1, place + 1, last);
    place
}

// An entry of n that meets the numbers from first to last, where one does.
fn meeting(firsts: &[u64], reach: &[u64], n: usize, first: u64, last: u64) -> Option<usize>
    requires { Ordered firsts.now reach.now n × (last < 9223372036854775808) }
    ensures { Found firsts.now reach.now n first last result }
{
    let r = begun(firsts, n, last);
    if r == 0 {
        return None;
    }
    if first <= reach[r - 1] {
        return Some(r - 1);
    }
    None
}

// Does one of n ranges meet the numbers from first to last?
pub fn meets(firsts: &[u64], reach: &[u64], n: usize, first: u64, last: u64) -> bool
    requires { Ordered firsts.now reach.now n × (last < 9223372036854775808) }
    ensures { result ≡ some_from (meets_at firsts.now reach.now first last) n 0 }
{
    meeting(firsts, reach, n, first, last).is_some()
}

// Does entry j hold f?
fn holds(firsts: &[u64], reach: &[u64], f: u64, j: usize) -> bool
    requires { (j < length firsts.now) × (j < length reach.now) }
    ensures { result ≡ holds firsts.now reach.now f j }
{
    if f < firsts[j] {
        return false;
    }
    f <= reach[j]
}

// Is j one of n entries, and does it hold f?
pub fn entry_holds(firsts: &[u64], reach: &[u64], n: usize, f: u64, j: usize) -> bool
    requires { (n ≤ length firsts.now) × (n ≤ length reach.now) }
    ensures { result ≡ (nat_lt j n && holds firsts.now reach.now f j) }
{
    if n <= j {
        return false;
    }
    holds(firsts, reach, f, j)
}

// An entry of n that holds f, the entry `guess` asked first, where one does.
pub fn find(firsts: &[u64], reach: &[u64], n: usize, guess: usize, f: u64) -> Option<usize>
    requires { Ordered firsts.now reach.now n × (f < 9223372036854775808) }
    ensures { Found firsts.now reach.now n f f result }
{
    if entry_holds(firsts, reach, n, f, guess) {
        return Some(guess);
    }
    meeting(firsts, reach, n, f, f)
}

// `size` numbers from `low` on.
#[derive(Clone, Copy)]
pub struct Interval {
    pub low: u64,
    pub size: u64,
}

// Does an interval hold f? One comparison tells: where f is below it, the difference wraps round and is greater than every size.
pub fn within(interval: Interval, f: u64) -> bool
    requires { interval.low + interval.size ≤ 4294967296 }
    ensures { result ≡ is_within interval f }
{
    wrapping_sub_u64(f, interval.low) < interval.size
}

// A key's number, cut to those of the zone whose keys begin with `base`.
fn cut(x: u64, base: u64) -> u64
    ensures { result ≡ min (x - base) 4294967295 }
{
    if x < base {
        return 0;
    }
    if 4294967295 < x - base {
        return 4294967295;
    }
    x - base
}

// The numbers of a zone around f that one entry holds, where f is in a range.
pub fn interval_around(
    firsts: &[u64],
    reach: &[u64],
    n: usize,
    zone: usize,
    f: u64,
) -> Option<Interval>
    requires { Ordered firsts.now reach.now n × ((zone < 4096) × (f < 4294967296)) }
    ensures { Around firsts.now reach.now n zone f result }
{
    let j = find(firsts, reach, n, n, key(zone, f))?;
    let base = key(zone, 0);
    let low = cut(firsts[j], base);
    let high = cut(reach[j], base);
    Some(Interval {
        low,
        size: high + 1 - low,
    })
}
