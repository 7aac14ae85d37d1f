// Whether the parents of a zone's faces agree with its cells: each use of a face is matched with one of its parents, and each parent with a use.
#![tactic(auto)]

mod arrays; // arrays.rt: the arrays of parents, by the entries of the tables
mod cells; // cells.rt: the cell that holds an entry
mod complete; // complete.rt: whether each parent is matched
mod matching; // matching.rt: the uses, one after the other
mod zone; // zone.rt: a zone's faces

pub use zone::zone_agrees;
