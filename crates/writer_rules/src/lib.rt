// Rules 7 to 17 of a node that is added, by the records then in the room and the sums of the nodes before.

#![tactic(auto)]

mod line; // line.rt: rules 7 and 8
mod names; // names.rt: rules 9 to 11
mod sizes; // sizes.rt: rules 12 to 17

pub use line::line_stage;
pub use names::{padded, text_stage};
pub use sizes::{size_stage, type_stage};
