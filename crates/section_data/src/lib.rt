// What the sections of an image store: their arrays as rows of numbers; their element ranges, of all zones in one pair of tables; the elements of a zone.
#![tactic(auto)]

mod arrays; // arrays.rt: the numbers of a node as a row
mod element_ranges; // element_ranges.rt: the ranges of sections; rule 28; the elements of a zone

pub use arrays::{row_of, size_of};
pub use element_ranges::{
    element_count, first_overlap, gather_cells, gather_faces, is_element, range_if,
};
