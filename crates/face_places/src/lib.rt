// The faces of a zone of an accepted image: its sections by type, and its face sections in tables, with the place of each one's first face.
#![tactic(auto)]

pub mod places; // places.rt: the zone's faces by ranges, and their places
pub mod zone_sections; // zone_sections.rt: the sections of a zone by type
