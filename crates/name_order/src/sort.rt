// Node numbers put in order by merging, between the first 4,096 places of the lent table and the next. Nothing is said of what it holds after: whoever
// uses the order checks it.
ghost use Rattle.std.specs.Prelude.{◌+◌, ◌≤◌, ◌<◌, length};
ghost use Rattle.name_order.specs.Order.{HasNodes};
ghost use Rattle.name_order.specs.Runs.{InHalves};

use super::{comes_before, node_at};

// Where the second half begins.
const HALF: usize = 4096;

// Two runs of nodes, one after the other: the first ends before node `mid` of those after place `from`, the second before node `end`. What they
// give is put after place `to`.
#[derive(Clone, Copy)]
struct Runs {
    from: usize,
    to: usize,
    mid: usize,
    end: usize,
}

// Whether node a, of the first run, is next, and not node b, of the second.
fn is_first_next(table: &[u8], count: usize, order: &[u16], runs: Runs, a: usize, b: usize) -> bool
    requires has_nodes { (HasNodes table.now count × (0 < count)) × ((16384 ≤ length order.now) × InHalves runs) }
    requires a_bound { (a ≤ 8192) × (b ≤ 8192) }
{
    if runs.mid <= a {
        return false;
    }
    if runs.end <= b {
        return true;
    }
    comes_before(
        table,
        node_at(order, count, runs.from + a),
        node_at(order, count, runs.from + b),
    )
}

// Puts the next node of two runs as node k, where the first run has come to node a, and answers where it is then.
fn put_next(table: &[u8], count: usize, order: &mut [u16], runs: Runs, a: usize, k: usize) -> usize
    requires has_nodes { (HasNodes table.now count × (0 < count)) × ((16384 ≤ length order.old) × InHalves runs) }
    requires a_le_k { (a ≤ k) × (k < 4096) }
    ensures { result ≤ k + 1 }
{
    let b = runs.mid + k - a;
    let from = runs.from;
    let to = runs.to;
    if is_first_next(table, count, order, runs, a, b) {
        order[to + k] = order[from + a];
        return a + 1;
    }
    order[to + k] = order[from + b];
    a
}

// Merges two runs, the first from node `start` on.
fn merge(table: &[u8], count: usize, order: &mut [u16], runs: Runs, start: usize)
    requires { (HasNodes table.now count × (0 < count)) × ((16384 ≤ length order.old) × InHalves runs) }
{
    let mut a = start;
    for k in start..runs.end {
        a = put_next(table, count, order, runs, a, k);
    }
}

// Merges each two neighbouring runs of `width` nodes.
fn merge_all(table: &[u8], count: usize, order: &mut [u16], from: usize, to: usize, width: usize)
    requires has_nodes { HasNodes table.now count × (16384 ≤ length order.old) }
    requires from_bound { ((from ≤ 4096) × (to ≤ 4096)) × ((0 < width) × (width ≤ 8192)) }
{
    for start in (0..count).step_by(2 * width) {
        let mid = count.min(start + width);
        let end = count.min(start + 2 * width);
        merge(table, count, order, Runs { from, to, mid, end }, start);
    }
}

// Writes the numbers of the nodes as they stand.
fn number_all(count: usize, order: &mut [u16])
    requires { (count ≤ 4096) × (16384 ≤ length order.old) }
{
    for (k, place) in order[..count].iter_mut().enumerate() {
        *place = k as u16;
    }
}

// Puts the nodes in order, in the first places of the table.
pub fn sort(table: &[u8], count: usize, order: &mut [u16])
    requires { HasNodes table.now count × (16384 ≤ length order.old) }
{
    number_all(count, order);
    let mut width: usize = 1;
    while width < count {
        merge_all(table, count, order, 0, HALF, width);
        merge_all(table, count, order, HALF, 0, 2 * width);
        width = 4 * width;
    }
}
