// Rule 39: the parents of faces, I4 or I8 with dimensions [n, 2], are cells of their zone; a second parent may be 0.
#![tactic(auto)]

mod columns; // columns.rt: a column of parents
mod rule; // rule.rt: rule 39 at a section, and the first node that breaks it

pub use rule::first_broken;
