// Element types by their number: nodes per element, which types have start offsets, which are supported; the length of an element of a MIXED section.
#![tactic(auto)]

ghost use Rattle.std.specs.Prelude.{◌≡◌, ◌≤◌, ◌||◌, eqb};
ghost use Rattle.model.specs.Elements.{NGON, NFACE, nodes_per, has_offsets, taken, fits_length};

pub const MIXED: u64 = 20;

pub const NGON: u64 = 22;

pub const NFACE: u64 = 23;

// Nodes per element of a type; 0 for a type with no fixed number.
pub fn nodes_per(element_type: u64) -> u64
    ensures { (result ≡ nodes_per element_type) × (result ≤ 27) }
{
    match element_type {
        2 => 1,
        3 => 2,
        4 => 3,
        5 => 3,
        6 => 6,
        7 => 4,
        8 => 8,
        9 => 9,
        10 => 4,
        11 => 10,
        12 => 5,
        13 => 14,
        14 => 6,
        15 => 15,
        16 => 18,
        17 => 8,
        18 => 20,
        19 => 27,
        21 => 13,
        _ => 0,
    }
}

// Whether the elements of a type may be of any size: NGON_n and NFACE_n.
pub fn of_any_size(element_type: u64) -> bool
    ensures { result ≡ (eqb element_type NGON || eqb element_type NFACE) }
{
    element_type == NGON || element_type == NFACE
}

// Whether the elements of a type are found by start offsets.
pub fn has_offsets(element_type: u64) -> bool
    ensures { result ≡ has_offsets element_type }
{
    if element_type == MIXED {
        return true;
    }
    of_any_size(element_type)
}

// Whether a type is supported (document 01: taken).
pub fn is_supported(element_type: u64) -> bool
    ensures { result ≡ taken element_type }
{
    0 < nodes_per(element_type) || has_offsets(element_type)
}

// Whether an element of a MIXED section that begins with this type may have this length: the type is of the fixed list, and the length 1 + its nodes.
pub fn fits_length(element_type: u64, length: u64) -> bool
    ensures { result ≡ fits_length element_type length }
{
    let nodes = nodes_per(element_type);
    if nodes == 0 {
        return false;
    }
    1 + nodes == length
}
