// Data types, shapes and stored values of a node: what rules 24 and 25 look at.
#![tactic(auto)]

mod arrays;
mod lawful;
mod shapes;
mod stored_numbers;
mod stored_texts;
mod zones;

pub use lawful::type_lawful;
pub use shapes::{flat, same_shape, shaped, typed, typed_either};
pub use stored_numbers::{MAX_NUMBER, not_negative, pair_within, rind_value, whole};
pub use stored_texts::{location_value, reads_if_found, zone_type_value};
pub use zones::{
    dimension_above, dimension_of, index_dimension, structured, unstructured, zone_type_of,
};
