// Rules 7 and 8: parents and depth.
ghost use Rattle.std.specs.Prelude.{◌≡◌, true};
ghost use Rattle.model.specs.Records.{parent_lawful, deeper_than};
ghost use Rattle.records.specs.Table.{all_records, HasRecord, LawfulBefore};

use records::nodes;

const NO_PARENT: usize = 4294967295;

const MAX_DEPTH: usize = 32;

// Rule 7: whether the root has no parent, or another node's is a lower number.
pub fn parent_lawful(table: &[u8], i: usize) -> bool
    requires { HasRecord table.now i }
    ensures { result ≡ parent_lawful (all_records table.now) i }
{
    let up = nodes::parent_of(table, i);
    if i == 0 {
        return up == NO_PARENT;
    }
    up < i
}

// Rule 8: whether node i is deeper than 32. It walks up at most so many parents.
// `writer_rules::line` has one of its own, since the node that it asks about is in no table yet.
pub fn is_too_deep(table: &[u8], i: usize) -> bool
    requires { HasRecord table.now i × (LawfulBefore table.now i × (parent_lawful (all_records table.now) i ≡ true)) }
    ensures { result ≡ deeper_than (all_records table.now) 32 i }
{
    let mut at = i;
    for _ in 0..MAX_DEPTH {
        if at == 0 {
            return false;
        }
        at = nodes::parent_of(table, at);
    }
    at != 0
}
