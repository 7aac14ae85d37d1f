// The placing table and the fixed names: the table's part of rule 20, and rule 21.
ghost use Rattle.std.specs.Prelude.{◌≡◌, ◌+◌, ◌≤◌, ◌<◌, Option, MatchOption};
ghost use Rattle.model.specs.Image.{tree_of, node_count, parent};
ghost use Rattle.model.specs.Bounds.{Laid};
ghost use Rattle.model.specs.Containment.{role, may_hold};
ghost use Rattle.model.specs.Values.{named};
ghost use Rattle.labels.specs.Cells.{Digits, cell_of};
ghost use Rattle.labels.specs.Roles.{role_number, kind_number};
ghost use Rattle.labels.specs.Names.{name_number};

use super::digits::digit;
use super::names::{Name, name_is, numbered_name};
use super::roles::{Role, kind_number};

// A cell of the table: 0 where the parent may not hold the child, 1 where it may; more where the child has a fixed name, 2 for the first known name.
const FIRST_NAME: u64 = 2;

// The table's row for a parent of this role: a hexadecimal digit for each role of a child, that of no role rightmost.
fn row(above: Role) -> u64
    ensures { Digits (cell_of (role_number above)) 16 result }
{
    match above {
        Role::Base => 0x0011_0000_0000_1000,
        Role::Zone => 0x0011_0000_1113_0000,
        Role::GridCoordinates => 0x0011_1040_0000_0000,
        Role::FlowSolution => 0x0a11_1549_0000_0000,
        Role::Elements => 0x0011_1046_0000_0000,
        Role::DataArray => 0x0001_0000_0000_0000,
        Role::Root => 0x120,
        _ => 0,
    }
}

// The table's cell for a child of one role under a parent of another.
fn cell(above: Option<Role>, below: Option<Role>) -> u64
    ensures { result ≡ cell_of (kind_number above) (kind_number below) }
{
    match above {
        Some(above) => digit(row(above), kind_number(below)),
        None => 0,
    }
}

// Does the placing table have a label under a parent?
pub fn may_hold(above: Option<Role>, below: Option<Role>) -> bool
    ensures { result ≡ may_hold (kind_number above) (kind_number below) }
{
    0 < cell(above, below)
}

// The fixed name of a child of one role under a parent of another, if it has one.
fn fixed_name(above: Option<Role>, below: Option<Role>) -> Option<Name>
    ensures { MatchOption result (cell_of (kind_number above) (kind_number below) ≤ 1) (λ known. cell_of (kind_number above) (kind_number below) ≡ name_number known + 2) }
{
    numbered_name(cell(above, below).checked_sub(FIRST_NAME)?)
}

// Rule 21: does node i have its fixed name, where it is to have one? Both roles are known; it is not the root.
pub fn named(image: &[u8], above: Option<Role>, below: Option<Role>, i: usize) -> bool
    requires laid { Laid image.now × (i < node_count image.now) }
    requires above_value { (kind_number above ≡ role (tree_of image.now) (parent (tree_of image.now) i)) × (kind_number below ≡ role (tree_of image.now) i) }
    ensures { result ≡ named (tree_of image.now) i }
{
    match fixed_name(above, below) {
        Some(known) => name_is(image, i, known),
        None => true,
    }
}
