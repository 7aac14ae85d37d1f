// The index of the tree: what each node is validated as, and each node's looked_up children.
#![tactic(auto)]

mod keys; // keys.rt: which slot of its parent a node is for
mod tables; // tables.rt: the table filled, and asked

pub use tables::{
    SIZE, build, connectivity, is_validated, is_zone, kind_of, location, offsets, parents,
    point_list, point_range, range, rind, role_of, section_of, validated_as, zone_type,
};
