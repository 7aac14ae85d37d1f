// Rules 38 and 34 to 37: the references of a section, and the types that the elements of a MIXED section begin with.
#![tactic(auto)]

mod face_references; // face_references.rt: rules 35 to 37
mod mixed; // mixed.rt: rules 38 and 34 of a MIXED section
mod nodes; // nodes.rt: rule 34
mod stage; // stage.rt: rules 38 and 34 to 37 together

pub use face_references::guess_eight;
pub use stage::reference_stage;
