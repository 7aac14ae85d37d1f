// The corner reader, on any image and any section entry; all corners of an element at once; an element's own type.
#![tactic(auto)]

mod element; // element.rt: all corners of an element
mod own_type; // own_type.rt: an element's own type
mod reader;
mod spans;

pub use element::element_corners;
pub use own_type::element_type;
pub use reader::corner;
