// Guesses of the entries that hold numbers, eight in one loop, by a search tree over the first numbers of a zone's ranges. Whoever uses a guess asks
// the entry: what the tree holds decides how soon an entry is found, not which.
ghost use Rattle.std.specs.Prelude.{◌+◌, ◌*◌, ◌<◌, ◌≤◌, length};
ghost use Rattle.ranges.specs.Tables.{Firsts};
ghost use Rattle.ranges.specs.SearchTree.{Built, InLevel};

use super::{begun, key};
use std::num::wrapping_add_u64;

// A tree: the first entry of its ranges, and how many places its lowest level has, a power of two; 0 where there is no tree. Place 1 is the top, and
// below place p stand places 2 p and 2 p + 1.
#[derive(Clone, Copy)]
pub struct SearchTree {
    pub from: usize,
    pub lowest: usize,
}

// Four numbers that are looked for.
#[derive(Clone, Copy)]
pub struct Four {
    pub a: u32,
    pub b: u32,
    pub c: u32,
    pub d: u32,
}

// A place of a tree for each of four numbers.
#[derive(Clone, Copy)]
pub struct Places {
    pub a: usize,
    pub b: usize,
    pub c: usize,
    pub d: usize,
}

// How many places the lowest level has, so that the tree tells `count` ranges apart.
fn lowest_for(count: usize) -> usize
    ensures { result ≤ 1024 }
{
    if count < 2 {
        return 0;
    }
    let mut lowest: usize = 1;
    while lowest <= 512 {
        if count <= 2 * lowest {
            return lowest;
        }
        lowest = 2 * lowest;
    }
    lowest
}

// The first number of entry j, without its zone; the greatest number where j is not before `to`.
fn number_of(firsts: &[u64], j: u64, to: usize) -> u32
    requires { to ≤ length firsts.now }
{
    if j < to as u64 {
        return (firsts[j as usize] % 4294967296) as u32;
    }
    4294967295
}

// Fills the level of a tree that begins with place `first`: its entries stand two steps apart, the first a step after entry `from`.
fn fill_level(firsts: &[u64], from: usize, to: usize, first: usize, step: usize, levels: &mut [u32])
    requires { ((to ≤ length firsts.now) × (from ≤ 2048)) × ((step ≤ 1024) × (2 * first ≤ length levels.old)) }
{
    let mut j = (from + step) as u64;
    for number in levels[first..2 * first].iter_mut() {
        *number = number_of(firsts, j, to);
        j = wrapping_add_u64(j, 2 * step as u64);
    }
}

// Makes the tree of the ranges of a zone, which are among n.
pub fn build(firsts: &[u64], n: usize, zone: usize, levels: &mut [u32]) -> SearchTree
    requires { (Firsts firsts.now n × (n ≤ 2048)) × ((zone < 4096) × (2048 ≤ length levels.old)) }
    ensures { Built result }
{
    let from = begun(firsts, n, key(zone, 0));
    let to = begun(firsts, n, key(zone, 4294967295));
    let lowest = lowest_for(to - from);
    let mut step = lowest;
    let mut first: usize = 1;
    while first <= lowest {
        fill_level(firsts, from, to, first, step, levels);
        step = step / 2;
        first = 2 * first;
    }
    SearchTree { from, lowest }
}

// The place below place p where f is to be looked for: the second where f is no less than the number at p.
fn below(levels: &[u32], p: usize, f: u32) -> usize
    requires { (p < length levels.now) × (p < 2048) }
    ensures { (2 * p ≤ result) × (result ≤ 2 * p + 1) }
{
    if levels[p] <= f { 2 * p + 1 } else { 2 * p }
}

// The places below those of the level that begins with place `first`, for four numbers.
fn four_below(levels: &[u32], first: usize, p: Places, f: Four) -> Places
    requires { ((first ≤ 1024) × (2048 ≤ length levels.now)) × InLevel first p }
    ensures { InLevel (2 * first) result }
{
    let a = below(levels, p.a, f.a);
    let b = below(levels, p.b, f.b);
    let c = below(levels, p.c, f.c);
    let d = below(levels, p.d, f.d);
    Places { a, b, c, d }
}

// Writes the entries of four places below the lowest level, the first of which is `first`, from number k of `entries` on.
fn put_entries(entries: &mut [usize], k: usize, first: usize, p: Places, from: usize)
    requires { ((k ≤ 4) × (8 ≤ length entries.old)) × (((first ≤ 2048) × (from ≤ 2048)) × InLevel first p) }
{
    entries[k] = from + p.a - first;
    entries[k + 1] = from + p.b - first;
    entries[k + 2] = from + p.c - first;
    entries[k + 3] = from + p.d - first;
}

// Guesses the entries of eight numbers of the tree's zone.
pub fn guess(levels: &[u32], tree: SearchTree, f: Four, g: Four, entries: &mut [usize])
    requires { (Built tree × (2048 ≤ length levels.now)) × (8 ≤ length entries.old) }
{
    let mut p = Places {
        a: 1,
        b: 1,
        c: 1,
        d: 1,
    };
    let mut q = Places {
        a: 1,
        b: 1,
        c: 1,
        d: 1,
    };
    let mut first: usize = 1;
    while first <= tree.lowest {
        p = four_below(levels, first, p, f);
        q = four_below(levels, first, q, g);
        first = 2 * first;
    }
    put_entries(entries, 0, first, p, tree.from);
    put_entries(entries, 4, first, q, tree.from);
}
