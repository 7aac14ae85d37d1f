// Rule 11 for all nodes at once, whatever their names: the nodes are put in the order of their parents and names, where namesakes stand side by side.
// The order is checked before it is used.
#![tactic(auto)]

ghost use Rattle.std.specs.Prelude.{◌≡◌, ◌*◌, ◌≤◌, ◌<◌, length};
ghost use Rattle.model.specs.Lists.{seek_from};
ghost use Rattle.model.specs.Found.{if_below};
ghost use Rattle.model.specs.Records.{name_taken};
ghost use Rattle.records.specs.Table.{all_records, HasRecord};
ghost use Rattle.name_order.specs.Order.{precedes, node_at, right_at, ordered, taken_beside, HasNodes};

mod sort; // sort.rt: the nodes in order, by merging

use records::{Record, nodes};

// Where the places of the nodes begin in the lent table.
const PLACES: usize = 8192;

// Whether node j stands before node i: by parent, then by the first byte in which the names differ, then by number.
fn comes_before(table: &[u8], j: usize, i: usize) -> bool
    requires { HasRecord table.now j × HasRecord table.now i }
    ensures { result ≡ precedes (all_records table.now) j i }
{
    let a = nodes::parent_of(table, j);
    let b = nodes::parent_of(table, i);
    if a != b {
        return a < b;
    }
    let p = Record::SIZE * j + Record::NAME;
    let q = Record::SIZE * i + Record::NAME;
    let d = texts::name_difference(table, i, j);
    if 32 < d {
        return j < i;
    }
    table[p + (d - 1)] < table[q + (d - 1)]
}

// The node stored at place k; 0 where the number there is that of none of `count` nodes.
fn node_at(order: &[u16], count: usize, k: usize) -> usize
    requires { (0 < count) × (k < length order.now) }
    ensures { (result ≡ node_at order.now count k) × (result < count) }
{
    let x = order[k] as usize;
    if x < count { x } else { 0 }
}

// Writes the place of each node.
fn put_places(count: usize, order: &mut [u16])
    requires { (count ≤ 4096) × (16384 ≤ length order.old) }
{
    for k in 0..count {
        let i = node_at(order, count, k);
        order[PLACES + i] = k as u16;
    }
}

// Whether node i stands at its place, and the node at place i after the one before.
fn is_right_at(table: &[u8], count: usize, order: &[u16], i: usize) -> bool
    requires { (HasNodes table.now count × (i < count)) × (16384 ≤ length order.now) }
    ensures { result ≡ right_at (all_records table.now) order.now count i }
{
    if node_at(order, count, node_at(order, count, PLACES + i)) != i {
        return false;
    }
    if i == 0 {
        return true;
    }
    comes_before(
        table,
        node_at(order, count, i - 1),
        node_at(order, count, i),
    )
}

// Whether that holds of each node: the order is right.
fn is_ordered(table: &[u8], count: usize, order: &[u16]) -> bool
    requires { HasNodes table.now count × (16384 ≤ length order.now) }
    ensures { result ≡ ordered (all_records table.now) order.now count }
{
    (0..count).all(|i| is_right_at(table, count, order, i))
}

// Whether the node before node i in the order is its namesake.
fn is_taken_beside(table: &[u8], count: usize, order: &[u16], i: usize) -> bool
    requires { (HasNodes table.now count × (i < count)) × (16384 ≤ length order.now) }
    ensures { result ≡ taken_beside (all_records table.now) order.now count i }
{
    let place = node_at(order, count, PLACES + i);
    if place == 0 {
        return false;
    }
    let up = nodes::parent_of(table, i);
    texts::is_namesake(table, i, up, node_at(order, count, place - 1))
}

// Whether an earlier sibling of node i has its name, by asking each.
fn is_taken_before(table: &[u8], i: usize) -> bool
    requires { HasRecord table.now i }
    ensures { result ≡ name_taken (all_records table.now) i }
{
    let up = nodes::parent_of(table, i);
    (0..i).any(|j| texts::is_namesake(table, i, up, j))
}

// The same, by the order where it holds.
fn is_taken(table: &[u8], count: usize, order: &[u16], holds: bool, i: usize) -> bool
    requires has_nodes { (HasNodes table.now count × (i < count)) × (16384 ≤ length order.now) }
    requires holds_value { holds ≡ ordered (all_records table.now) order.now count }
    ensures { result ≡ name_taken (all_records table.now) i }
{
    if holds {
        return is_taken_beside(table, count, order, i);
    }
    is_taken_before(table, i)
}

// The first node whose name is taken, by an order that is checked here.
fn first_by(table: &[u8], count: usize, order: &[u16]) -> Option<usize>
    requires { HasNodes table.now count × (16384 ≤ length order.now) }
    ensures { result ≡ if_below count (seek_from (name_taken (all_records table.now)) count 0) }
{
    let holds = is_ordered(table, count, order);
    (0..count).find(|i| is_taken(table, count, order, holds, *i))
}

// The first node with the name of an earlier sibling. The lent table is overwritten, whatever it holds.
pub fn first_taken(table: &[u8], count: usize, order: &mut [u16]) -> Option<usize>
    requires count_bound { (count ≤ 4096) × (84 * count ≤ length table.now) }
    requires in_bounds { 16384 ≤ length order.old }
    ensures { result ≡ if_below count (seek_from (name_taken (all_records table.now)) count 0) }
{
    sort::sort(table, count, order);
    put_places(count, order);
    first_by(table, count, order)
}
