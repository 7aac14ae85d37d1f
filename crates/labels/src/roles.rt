// What a node is validated as: its label among the known ones, or the root.
ghost use Rattle.std.specs.Prelude.{◌≡◌, ◌<◌, Option};
ghost use Rattle.model.specs.Image.{tree_of, node_count};
ghost use Rattle.model.specs.Bounds.{Laid};
ghost use Rattle.model.specs.Containment.{role};
ghost use Rattle.labels.specs.Padded.{Begins};
ghost use Rattle.labels.specs.Roles.{kind_number};

use super::known::rest_is;
use records::Record;

// The known labels in the order of their numbers, and the root.
#[derive(Clone, Copy, PartialEq, Eq)]
pub enum Role {
    LibraryVersion = 1,
    Base = 2,
    Zone = 3,
    ZoneType = 4,
    GridCoordinates = 5,
    FlowSolution = 6,
    Elements = 7,
    IndexRange = 8,
    Rind = 9,
    GridLocation = 10,
    DataArray = 11,
    Descriptor = 12,
    UserDefinedData = 13,
    IndexArray = 14,
    Root = 15,
}

// The number of a role; 0 where there is none.
pub fn kind_number(role: Option<Role>) -> u64
    ensures { result ≡ kind_number role }
{
    match role {
        Some(role) => role as u64,
        None => 0,
    }
}

// The role of this number, if any has it.
pub fn numbered_role(number: u64) -> Option<Role>
    requires { number < 16 }
    ensures { kind_number result ≡ number }
{
    match number {
        1 => Some(Role::LibraryVersion),
        2 => Some(Role::Base),
        3 => Some(Role::Zone),
        4 => Some(Role::ZoneType),
        5 => Some(Role::GridCoordinates),
        6 => Some(Role::FlowSolution),
        7 => Some(Role::Elements),
        8 => Some(Role::IndexRange),
        9 => Some(Role::Rind),
        10 => Some(Role::GridLocation),
        11 => Some(Role::DataArray),
        12 => Some(Role::Descriptor),
        13 => Some(Role::UserDefinedData),
        14 => Some(Role::IndexArray),
        15 => Some(Role::Root),
        _ => None,
    }
}

// The one known label that may begin with these eight bytes. The first words of labels are all different.
fn candidate(word: u64) -> Option<Role>
    ensures { Begins word (kind_number result) }
{
    match word {
        0x7262_694c_534e_4743 => Some(Role::LibraryVersion), // CGNSLibr
        0x6573_6142_534e_4743 => Some(Role::Base), // CGNSBase
        0x2020_745f_656e_6f5a => Some(Role::Zone), // Zone_t
        0x6570_7954_656e_6f5a => Some(Role::ZoneType), // ZoneType
        0x726f_6f43_6469_7247 => Some(Role::GridCoordinates), // GridCoor
        0x756c_6f53_776f_6c46 => Some(Role::FlowSolution), // FlowSolu
        0x7374_6e65_6d65_6c45 => Some(Role::Elements), // Elements
        0x6e61_5278_6564_6e49 => Some(Role::IndexRange), // IndexRan
        0x2020_745f_646e_6952 => Some(Role::Rind), // Rind_t
        0x6163_6f4c_6469_7247 => Some(Role::GridLocation), // GridLoca
        0x6172_7241_6174_6144 => Some(Role::DataArray), // DataArra
        0x7470_6972_6373_6544 => Some(Role::Descriptor), // Descript
        0x6966_6544_7265_7355 => Some(Role::UserDefinedData), // UserDefi
        0x7272_4178_6564_6e49 => Some(Role::IndexArray), // IndexArr
        _ => None,
    }
}

// The role of node i: a known label, or the root whatever its label; none for any other label.
pub fn role_of(image: &[u8], i: usize) -> Option<Role>
    requires { Laid image.now × (i < node_count image.now) }
    ensures { kind_number result ≡ role (tree_of image.now) i }
{
    if i == 0 {
        return Some(Role::Root);
    }
    let at = Record::at(i) + Record::LABEL;
    let label = candidate(words::u64_at(image, at))?;
    let second = words::u64_at(image, at + 8);
    let third = words::u64_at(image, at + 16);
    let fourth = words::u64_at(image, at + 24);
    if rest_is(label as usize - 1, second, third, fourth) {
        Some(label)
    } else {
        None
    }
}
