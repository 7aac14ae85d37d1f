// The known names: those that a node must have, or is looked up by.
ghost use Rattle.std.specs.Prelude.{◌≡◌, ◌≤◌, ◌<◌, [], get_or, MatchOption};
ghost use Rattle.model.specs.Bytes.{spells};
ghost use Rattle.model.specs.Image.{tree_of, node_count, name};
ghost use Rattle.model.specs.Bounds.{Laid};
ghost use Rattle.labels.specs.Padded.{field_word, known_names};
ghost use Rattle.labels.specs.Names.{name_number};

use super::known::{FIRST_NAME, rest_is};
use records::Record;

// The known names in the order of their numbers.
#[derive(Clone, Copy, PartialEq, Eq)]
pub enum Name {
    LibraryVersion = 0,
    ZoneType = 1,
    Rind = 2,
    GridLocation = 3,
    ElementRange = 4,
    ElementConnectivity = 5,
    ElementStartOffset = 6,
    PointRange = 7,
    PointList = 8,
    ParentElements = 9,
}

// The name of this number, if any has it.
pub fn numbered_name(number: u64) -> Option<Name>
    ensures { MatchOption result (10 ≤ number) (λ known. name_number known ≡ number) }
{
    match number {
        0 => Some(Name::LibraryVersion),
        1 => Some(Name::ZoneType),
        2 => Some(Name::Rind),
        3 => Some(Name::GridLocation),
        4 => Some(Name::ElementRange),
        5 => Some(Name::ElementConnectivity),
        6 => Some(Name::ElementStartOffset),
        7 => Some(Name::PointRange),
        8 => Some(Name::PointList),
        9 => Some(Name::ParentElements),
        _ => None,
    }
}

// The first eight bytes of a name.
fn first_word(known: Name) -> u64
    ensures { result ≡ field_word (get_or known_names (name_number known) []) 0 }
{
    match known {
        Name::LibraryVersion => 0x7262_694c_534e_4743, // CGNSLibr
        Name::ZoneType => 0x6570_7954_656e_6f5a, // ZoneType
        Name::Rind => 0x2020_2020_646e_6952, // Rind
        Name::GridLocation => 0x6163_6f4c_6469_7247, // GridLoca
        Name::ElementRange => 0x5274_6e65_6d65_6c45, // ElementR
        Name::ElementConnectivity => 0x4374_6e65_6d65_6c45, // ElementC
        Name::ElementStartOffset => 0x5374_6e65_6d65_6c45, // ElementS
        Name::PointRange => 0x6e61_5274_6e69_6f50, // PointRan
        Name::PointList => 0x7369_4c74_6e69_6f50, // PointLis
        Name::ParentElements => 0x6c45_746e_6572_6150, // ParentEl
    }
}

// Does node i have this name?
pub fn name_is(image: &[u8], i: usize, known: Name) -> bool
    requires { Laid image.now × (i < node_count image.now) }
    ensures { result ≡ spells (name (tree_of image.now) i) (get_or known_names (name_number known) []) }
{
    let at = Record::at(i) + Record::NAME;
    if words::u64_at(image, at) != first_word(known) {
        return false;
    }
    rest_is(
        FIRST_NAME + known as usize,
        words::u64_at(image, at + 8),
        words::u64_at(image, at + 16),
        words::u64_at(image, at + 24),
    )
}
