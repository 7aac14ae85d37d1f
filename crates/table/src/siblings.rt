// Rule 11 from node to node: by the keys of names, and by the order of all names where searches grow long.
ghost use Rattle.std.specs.Prelude.{◌≡◌, ◌+◌, ◌*◌, ◌≤◌, ◌<◌, length};
ghost use Rattle.model.specs.Records.{name_taken};
ghost use Rattle.records.specs.Table.{all_records, HasRecord};
ghost use Rattle.texts.specs.Keys.{key_at};
ghost use Rattle.table.specs.Siblings.{Names, NamesAt};

// So many nodes are looked at in searches before the names are put in order: names whose keys are spread never need as many.
pub const SEARCHES: usize = 32768;

// How it is known at a node whether its name is taken: by the keys of the nodes before it, where searches may still look at so many nodes; or by
// the first node with the name of an earlier sibling, where names are in order.
#[derive(Clone, Copy)]
pub enum Known {
    ByKeys(usize),
    InOrder(Option<usize>),
}

// Rule 11: whether an earlier sibling of node i has its name.
pub fn is_taken(table: &[u8], i: usize, key: usize, seen: &[u16], known: Known) -> bool
    requires has_record { HasRecord table.now i }
    requires key_value { (key ≡ key_at (all_records table.now) i) × NamesAt table.now i known seen.now }
    ensures { result ≡ name_taken (all_records table.now) i }
{
    match known {
        Known::ByKeys(_) => texts::name_taken(table, i, key, seen),
        Known::InOrder(Some(first)) => i == first,
        Known::InOrder(None) => false,
    }
}

// What is known of names after node i: its key is marked and the node linked too, or, where searches have looked at enough nodes, all
// names are put in order.
pub fn next(
    known: Known,
    table: &[u8],
    count: usize,
    i: usize,
    key: usize,
    seen: &mut [u16],
) -> Known
    requires count_bound { ((count ≤ 4096) × (84 * count ≤ length table.now)) × (16384 ≤ length seen.old) }
    requires i_lt_count { (i < count) × ((key ≡ key_at (all_records table.now) i) × Names table.now count i known seen.old) }
    ensures { Names table.now count (i + 1) result seen.new }
{
    let Known::ByKeys(left) = known else {
        return known;
    };
    let steps = texts::search_length(seen, key);
    if left < steps {
        return Known::InOrder(name_order::first_taken(table, count, seen));
    }
    texts::add_node(seen, i, key);
    Known::ByKeys(left - steps)
}
