// Rules 20 to 26: zone sizes, permitted values, conforming children, DataSize.
#![tactic(auto)]

mod children; // children.rt: conforming children, the parents of a section
mod data_size; // data_size.rt: DataSize
mod required; // required.rt: containment and required children
mod stages; // stages.rt: the rules in order
mod permitted; // permitted.rt: permitted values
mod zone; // zone.rt: a zone's sizes

pub use children::{connectivity_of, offsets_of, parents_of, range_of};
pub use stages::{sids_stage, sized_array};
