// The section entries of a zone: as flat numbers, and as structs.
#![tactic(auto)]

mod answers; // answers.rt: validation's rejection, rules 40 and 46, and the count
mod listing; // listing.rt: the entries as structs
mod numbers; // numbers.rt: the entries as flat numbers

pub use listing::list_sections;
pub use numbers::section_entries;
