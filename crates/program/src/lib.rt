// The program's answer. What is printed of a file's bytes stands in specs/, what follows from it in proofs/.
#![tactic(auto)]

// The nodes of the largest grid.
pub const MOST_NODES: usize = file_run::MOST_NODES;

// The length of the text, and whether the file was refused. An enum of the two would have the same length in both cases.
#[derive(Drop)]
pub struct Printed {
    pub length: usize,
    pub refused: bool,
}
