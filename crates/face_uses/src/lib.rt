// The uses of a zone's faces: the references of its cells, one after the other, each with the entry of the tables that holds its face.
#![tactic(auto)]

pub mod cells; // cells.rt: the references of the zone's cells
pub mod uses; // uses.rt: the references, one after the other
