// The sections of a zone in node order: how many there are, and the entry of each.
#![tactic(auto)]

mod entry; // entry.rt: the entry of one section
mod zones; // zones.rt: the sections of a zone, one after the other, and how many

pub use zones::{entry_after, section_count};
