// The types that contracts name: a rejection, what calls answer, a section. What they mean stands in specs/. A call answers a `Result` whose error is a
// `Rejection`.
#![tactic(auto)]

ghost use Rattle.std.specs.Prelude.{◌≡◌};
ghost use Rattle.model.specs.Rules.{rejected, rejection, rejection_at, repetition};
ghost use Rattle.model.specs.Answers.{stage_tells};

// Why a call is refused: the rule's number, the node (0 where the rule names none), for rules 34 to 37 alone the place of the entry in the connectivity,
// counted from 1, and for rule 45 alone the element.
#[derive(Clone, Copy)]
pub struct Rejection {
    pub rule: u64,
    pub node: u64,
    pub entry: u64,
    pub element: u64,
}

impl Rejection {
    // A rule broken at a node.
    pub fn at(rule: u64, node: u64) -> Rejection
        ensures { result ≡ rejection rule node }
    {
        Rejection {
            rule,
            node,
            entry: 0,
            element: 0,
        }
    }

    // A rule broken by an entry of a section's connectivity.
    pub fn at_entry(rule: u64, node: u64, entry: u64) -> Rejection
        ensures { result ≡ rejection_at rule node entry }
    {
        Rejection {
            rule,
            node,
            entry,
            element: 0,
        }
    }

    // Rule 45: a face that an element of a section uses a second time with one sign.
    pub fn repeated(node: u64, element: u64) -> Rejection
        ensures { result ≡ repetition node element }
    {
        Rejection {
            rule: 45,
            node,
            entry: 0,
            element,
        }
    }
}

// The answer of a check that a rule ends.
pub fn reject(rule: u64, node: usize) -> Result<(), Rejection>
    ensures { stage_tells result ≡ rejected (rejection rule node) }
{
    Err(Rejection::at(rule, node as u64))
}

// Rules 1 to 18: the table's counts.
#[derive(Clone, Copy)]
pub struct Table {
    pub nodes: u64,
    pub dimensions: u64,
    pub bytes: u64,
}

// Validation of an image: the four counts of an acceptance.
#[derive(Clone, Copy)]
pub struct Validation {
    pub validated: u64,
    pub skipped: u64,
    pub zones: u64,
    pub sections: u64,
}

// The DataSize of an array in the directions i, j, k; a direction that the array lacks is 0.
#[derive(Clone, Copy)]
pub struct DataSize {
    pub directions: u64,
    pub i: u64,
    pub j: u64,
    pub k: u64,
}

// A stored value, its bits unchanged. A NaN has cases of its own, which carry its bits.
#[derive(Clone, Copy)]
pub enum ArrayValue {
    Whole(i64),
    Single(f32),
    Double(f64),
    SingleNan(u32),
    DoubleNan(u64),
}

// The two parents of a face, as its section stores them; the second is 0 where there is none.
#[derive(Clone, Copy)]
pub struct ParentPair {
    pub first: u64,
    pub second: u64,
}

// A section entry: where a section's elements stand in the image, and the parents of its faces. Places count from the image's start; 0 with width 0 where
// absent, and for parents where the section is not of type 22.
#[repr(C)]
#[derive(Clone, Copy)]
pub struct Section {
    pub node: u64,
    pub element_type: u64,
    pub first: u64,
    pub last: u64,
    pub offsets_at: u64,
    pub offsets_width: u64,
    pub connectivity_at: u64,
    pub connectivity_width: u64,
    pub connectivity_length: u64,
    pub parents_at: u64,
    pub parents_width: u64,
}
