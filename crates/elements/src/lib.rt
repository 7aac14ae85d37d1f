// Rules 27 to 39: the type, the range, the lengths, the start offsets, the references and the parents of a section.
#![tactic(auto)]

mod lengths; // lengths.rt: rules 29 to 33
mod stage; // stage.rt: rules 27 to 39 together

pub use stage::element_stage;
