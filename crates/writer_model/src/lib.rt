// The type that the writer's contracts name: its state. What it means stands in specs/.
#![tactic(auto)]

// A writer's state: nodes, dimension words and data bytes as stated at the start; then how many of each were added so far.
#[derive(Clone, Copy)]
pub struct Writer {
    pub nodes: u32,
    pub words: u32,
    pub bytes: u32,
    pub node: u32,
    pub word: u32,
    pub byte: u32,
}
