// The parents of faces in an accepted image.
#![tactic(auto)]

mod face; // face.rt: the section that brings a face, and its parents there
mod rows_of; // rows_of.rt: the parents that a section stores as a row

pub use face::{any_parents, parents_of_face, section_with_face};
pub use rows_of::{has_parents, parents_row};
