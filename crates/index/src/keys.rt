// Which slot of its parent a node is for.
ghost use Rattle.std.specs.Prelude.{◌≡◌, ◌≤◌, ◌<◌, get_or, Option, MatchOption, IfSome};
ghost use Rattle.std.specs.Option.{unwrap_or};
ghost use Rattle.model.specs.Image.{tree_of, node_count};
ghost use Rattle.model.specs.Bounds.{Laid};
ghost use Rattle.model.specs.Containment.{role};
ghost use Rattle.model.specs.Found.{if_below};
ghost use Rattle.labels.specs.Cells.{Digits};
ghost use Rattle.labels.specs.Roles.{role_number, kind_number};
ghost use Rattle.labels.specs.Names.{name_number};
ghost use Rattle.index.specs.Keys.{key_roles, key_at, is_key, first_slot, SlotOf};

use labels::{Name, Role, digit, name_is, numbered_name};

// How many slots a node has.
pub const WIDTH: usize = 4;

// The keys of the four slots of a node, by its kind: a digit each, that of slot 0 rightmost. A key is the number of a known name; 10 where a slot has none.
fn slot_keys(above: Role) -> u64
    ensures { Digits (key_at (role_number above)) 4 result }
{
    match above {
        Role::Zone => 0xaaa1,
        Role::GridCoordinates => 0xaaa2,
        Role::FlowSolution => 0x8732,
        Role::Elements => 0x9654,
        _ => 0xaaaa,
    }
}

// The name that slot k is for, if it is for any.
fn key_at(above: Role, k: usize) -> Option<Name>
    requires { k < 4 }
    ensures { MatchOption result (key_at (role_number above) k ≡ 10) (λ key. key_at (role_number above) k ≡ name_number key) }
{
    numbered_name(digit(slot_keys(above), k as u64))
}

// The role that goes with a key. CGNSLibraryVersion is no key.
fn key_role(key: Name) -> Option<Role>
    ensures { MatchOption result (get_or key_roles (name_number key) 16 ≡ 16) (λ role. get_or key_roles (name_number key) 16 ≡ role_number role) }
{
    match key {
        Name::LibraryVersion => None,
        Name::ZoneType => Some(Role::ZoneType),
        Name::Rind => Some(Role::Rind),
        Name::GridLocation => Some(Role::GridLocation),
        Name::ElementRange => Some(Role::IndexRange),
        Name::ElementConnectivity => Some(Role::DataArray),
        Name::ElementStartOffset => Some(Role::DataArray),
        Name::PointRange => Some(Role::IndexRange),
        Name::PointList => Some(Role::IndexArray),
        Name::ParentElements => Some(Role::DataArray),
    }
}

// The first slot for a child, by the kind of the parent: a digit for each role of the child, that of no role rightmost; 4 where there is none.
fn first_slots(above: Role) -> u64
    ensures { Digits (first_slot (role_number above)) 16 result }
{
    match above {
        Role::Zone => 0x4444_4444_4440_4444,
        Role::GridCoordinates => 0x4444_4404_4444_4444,
        Role::FlowSolution => 0x4344_4102_4444_4444,
        Role::Elements => 0x4444_1440_4444_4444,
        _ => 0x4444_4444_4444_4444,
    }
}

// The first slot for a child of one role under a parent of another, if there is one.
fn first_slot(above: Role, below: Role) -> Option<usize>
    ensures { result ≡ if_below 4 (first_slot (role_number above) (role_number below)) }
{
    let slot = digit(first_slots(above), below as u64) as usize;
    if slot < WIDTH { Some(slot) } else { None }
}

// Is node j, of this role, what slot k is for, under a parent of this kind?
fn is_key(image: &[u8], above: Role, below: Role, k: usize, j: usize) -> bool
    requires laid { (Laid image.now × (j < node_count image.now)) × (k < 4) }
    requires below_value { role_number below ≡ role (tree_of image.now) j }
    ensures { result ≡ is_key (tree_of image.now) (role_number above) k j }
{
    let Some(key) = key_at(above, k) else {
        return false;
    };
    let Some(role) = key_role(key) else {
        return false;
    };
    role == below && name_is(image, j, key)
}

// The slot that node j, of this role, is for, under a parent of this kind, if it is for any. Few nodes come to a comparison of names.
pub fn slot_of(image: &[u8], above: Option<Role>, below: Option<Role>, j: usize) -> Option<usize>
    requires laid { Laid image.now × (j < node_count image.now) }
    requires below_value { kind_number below ≡ role (tree_of image.now) j }
    ensures { SlotOf (tree_of image.now) (kind_number above) j (unwrap_or result 4) × IfSome result (λ k. k < 4) }
{
    let above = above?;
    let below = below?;
    for k in first_slot(above, below)?..WIDTH {
        if is_key(image, above, below, k, j) {
            return Some(k);
        }
    }
    None
}
