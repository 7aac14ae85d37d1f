// The table of the index, filled by one pass over the nodes, and asked: four numbers a node, its looked_up children, with its kind above the first.
ghost use Rattle.std.specs.Prelude.{◌≡◌, true, ◌⊎◌, ◌+◌, ◌*◌, ◌≤◌, ◌<◌, length, Option};
ghost use Rattle.model.specs.Image.{tree_of, node_count};
ghost use Rattle.model.specs.Given.{Sound};
ghost use Rattle.model.specs.Found.{if_below};
ghost use Rattle.model.specs.Bytes.{text};
ghost use Rattle.model.specs.Containment.{role, validated, validated_as, is_zone, section_of, child};
ghost use Rattle.model.specs.Containment.{Zone, ZoneType, GridCoordinates, FlowSolution, Elements, IndexRange, Rind, GridLocation, DataArray, IndexArray};
ghost use Rattle.labels.specs.Roles.{role_number, kind_number};
ghost use Rattle.index.specs.Index.{kind, kind_below, kind_at, put_at, slot_child, Rows, RowBegun, Index};

use super::keys::{WIDTH, slot_of};
use labels::{Role, kind_number, numbered_role};

// How many numbers the index of an image has at most.
pub const SIZE: usize = 16384;

// A kind is so many times its number; node numbers are below.
const KIND: u16 = 4096;

// The slots of a zone.
const ZONE_TYPE: usize = 0;

// Those of coordinates and of a flow solution.
const RIND: usize = 0;

const LOCATION: usize = 1;

const POINT_RANGE: usize = 2;

const POINT_LIST: usize = 3;

// Those of a section.
const RANGE: usize = 0;

const CONNECTIVITY: usize = 1;

const OFFSETS: usize = 2;

const PARENTS: usize = 3;

// What a node is validated as, by its parent's kind and its own role.
fn kind_below(above: Option<Role>, role: Option<Role>) -> Option<Role>
    ensures { kind_number result ≡ kind_below (kind_number above) (kind_number role) }
{
    match above? {
        Role::UserDefinedData => None,
        _ => role,
    }
}

// The kind in row j.
fn row_kind(index: &[u16], j: usize) -> Option<Role>
    requires { ((j < 4096) × (4 * j + 4 ≤ length index.now)) × (kind_at index.now j < 16) }
    ensures { kind_number result ≡ kind_at index.now j }
{
    numbered_role((index[WIDTH * j] / KIND) as u64)
}

// Begins row j: the kind, and no child.
fn begin_row(index: &mut [u16], j: usize, kind: Option<Role>)
    requires { (j < 4096) × (4 * j + 4 ≤ length index.old) }
    ensures { RowBegun index.old j (kind_number kind) index.new }
{
    index[WIDTH * j] = KIND * kind_number(kind) as u16;
    index[WIDTH * j + 1] = 0;
    index[WIDTH * j + 2] = 0;
    index[WIDTH * j + 3] = 0;
}

// Puts node j at a place that holds no node yet; a place that holds one stays.
fn put(index: &mut [u16], at: usize, j: usize)
    requires { (at < length index.old) × (j < 4096) }
    ensures { index.new ≡ put_at index.old at j }
{
    let x = index[at];
    if x % KIND == 0 {
        index[at] = x + j as u16;
    }
}

// Node j, after the nodes before it: its row, and its parent's slot where it is the first for it.
fn mark_node(image: &[u8], index: &mut [u16], j: usize)
    requires sound { Sound image.now × ((0 < j) × (j < node_count image.now)) }
    requires rows { Rows image.now index.old j j }
    ensures { Rows image.now index.new (j + 1) (j + 1) }
{
    let up = records::parent_of(image, j);
    let above = row_kind(index, up);
    let role = labels::role_of(image, j);
    begin_row(index, j, kind_below(above, role));
    if let Some(k) = slot_of(image, above, role, j) {
        put(index, WIDTH * up + k, j);
    }
}

// Fills the index, whatever it holds before.
pub fn build(image: &[u8], index: &mut [u16])
    requires { Sound image.now × (16384 ≤ length index.old) }
    ensures { Index image.now index.new }
{
    let n = labels::node_count(image);
    begin_row(index, 0, Some(Role::Root));
    for j in 1..n {
        mark_node(image, index, j);
    }
}

// The kind of node i: its role where it is validated.
pub fn kind_of(image: &[u8], index: &[u16], i: usize) -> Option<Role>
    requires { Index image.now index.now × (i < node_count image.now) }
    ensures { kind_number result ≡ kind (tree_of image.now) i }
{
    row_kind(index, i)
}

// The role of a validated node.
pub fn role_of(image: &[u8], index: &[u16], i: usize) -> Role
    requires index { Index image.now index.now × (i < node_count image.now) }
    requires i_value { validated (tree_of image.now) i ≡ true }
    ensures { role_number result ≡ role (tree_of image.now) i }
{
    kind_of(image, index, i).unwrap()
}

// Is node i validated?
pub fn is_validated(image: &[u8], index: &[u16], i: usize) -> bool
    requires { Index image.now index.now × (i < node_count image.now) }
    ensures { result ≡ validated (tree_of image.now) i }
{
    kind_of(image, index, i).is_some()
}

// Is node i validated as a node of this role?
pub fn validated_as(image: &[u8], index: &[u16], role: Role, i: usize) -> bool
    requires { Index image.now index.now × (i < node_count image.now) }
    ensures { result ≡ validated_as (tree_of image.now) (role_number role) i }
{
    kind_of(image, index, i) == Some(role)
}

// Is there a validated zone of this number?
pub fn is_zone(image: &[u8], index: &[u16], z: u64) -> bool
    requires { Index image.now index.now }
    ensures { result ≡ is_zone (tree_of image.now) z }
{
    if z < labels::node_count(image) as u64 {
        validated_as(image, index, Role::Zone, z as usize)
    } else {
        false
    }
}

// Is node s a section of node z: its validated Elements_t child?
pub fn section_of(image: &[u8], index: &[u16], z: usize, s: usize) -> bool
    requires { Index image.now index.now × (s < node_count image.now) }
    ensures { result ≡ section_of (tree_of image.now) z s }
{
    if records::parent_of(image, s) != z {
        return false;
    }
    validated_as(image, index, Role::Elements, s)
}

// The child of node p that its slot k is for.
fn look_up(image: &[u8], index: &[u16], p: usize, k: usize) -> Option<usize>
    requires { Index image.now index.now × ((p < node_count image.now) × (k < 4)) }
    ensures { result ≡ if_below (node_count image.now) (slot_child (tree_of image.now) p k) }
{
    let j = index[WIDTH * p + k] % KIND;
    if j == 0 {
        return None;
    }
    Some(j as usize)
}

// The children by name, from here on: each function promises another child, and is one call of `look_up`.

// The ZoneType of a zone.
pub fn zone_type(image: &[u8], index: &[u16], p: usize) -> Option<usize>
    requires index { Index image.now index.now × (p < node_count image.now) }
    requires p_value { kind (tree_of image.now) p ≡ Zone }
    ensures { result ≡ if_below (node_count image.now) (child (tree_of image.now) p ZoneType (text "ZoneType")) }
{
    look_up(image, index, p, ZONE_TYPE)
}

// The ElementRange of a section.
pub fn range(image: &[u8], index: &[u16], p: usize) -> Option<usize>
    requires index { Index image.now index.now × (p < node_count image.now) }
    requires p_value { kind (tree_of image.now) p ≡ Elements }
    ensures { result ≡ if_below (node_count image.now) (child (tree_of image.now) p IndexRange (text "ElementRange")) }
{
    look_up(image, index, p, RANGE)
}

// The ElementConnectivity of a section.
pub fn connectivity(image: &[u8], index: &[u16], p: usize) -> Option<usize>
    requires index { Index image.now index.now × (p < node_count image.now) }
    requires p_value { kind (tree_of image.now) p ≡ Elements }
    ensures { result ≡ if_below (node_count image.now) (child (tree_of image.now) p DataArray (text "ElementConnectivity")) }
{
    look_up(image, index, p, CONNECTIVITY)
}

// The ElementStartOffset of a section.
pub fn offsets(image: &[u8], index: &[u16], p: usize) -> Option<usize>
    requires index { Index image.now index.now × (p < node_count image.now) }
    requires p_value { kind (tree_of image.now) p ≡ Elements }
    ensures { result ≡ if_below (node_count image.now) (child (tree_of image.now) p DataArray (text "ElementStartOffset")) }
{
    look_up(image, index, p, OFFSETS)
}

// The ParentElements of a section.
pub fn parents(image: &[u8], index: &[u16], p: usize) -> Option<usize>
    requires index { Index image.now index.now × (p < node_count image.now) }
    requires p_value { kind (tree_of image.now) p ≡ Elements }
    ensures { result ≡ if_below (node_count image.now) (child (tree_of image.now) p DataArray (text "ParentElements")) }
{
    look_up(image, index, p, PARENTS)
}

// The GridLocation of a flow solution.
pub fn location(image: &[u8], index: &[u16], p: usize) -> Option<usize>
    requires index { Index image.now index.now × (p < node_count image.now) }
    requires p_value { kind (tree_of image.now) p ≡ FlowSolution }
    ensures { result ≡ if_below (node_count image.now) (child (tree_of image.now) p GridLocation (text "GridLocation")) }
{
    look_up(image, index, p, LOCATION)
}

// The PointRange of a flow solution.
pub fn point_range(image: &[u8], index: &[u16], p: usize) -> Option<usize>
    requires index { Index image.now index.now × (p < node_count image.now) }
    requires p_value { kind (tree_of image.now) p ≡ FlowSolution }
    ensures { result ≡ if_below (node_count image.now) (child (tree_of image.now) p IndexRange (text "PointRange")) }
{
    look_up(image, index, p, POINT_RANGE)
}

// Its PointList.
pub fn point_list(image: &[u8], index: &[u16], p: usize) -> Option<usize>
    requires index { Index image.now index.now × (p < node_count image.now) }
    requires p_value { kind (tree_of image.now) p ≡ FlowSolution }
    ensures { result ≡ if_below (node_count image.now) (child (tree_of image.now) p IndexArray (text "PointList")) }
{
    look_up(image, index, p, POINT_LIST)
}

// The Rind of coordinates or of a flow solution.
pub fn rind(image: &[u8], index: &[u16], p: usize) -> Option<usize>
    requires index { Index image.now index.now × (p < node_count image.now) }
    requires fact { (kind (tree_of image.now) p ≡ GridCoordinates) ⊎ (kind (tree_of image.now) p ≡ FlowSolution) }
    ensures { result ≡ if_below (node_count image.now) (child (tree_of image.now) p Rind (text "Rind")) }
{
    look_up(image, index, p, RIND)
}
