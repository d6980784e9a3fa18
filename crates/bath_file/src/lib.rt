// A bath file: a header, then particle records. What reading it and writing a header do stands in specs/, what follows from it
// in proofs/.
#![tactic(auto)]

use particles::SET_LENGTH;

// The length of a header in bytes.
pub const HEADER_LENGTH: usize = 11;

// One byte more than the longest file that is accepted: whoever reads as many bytes of an input need not read the others.
pub const FILE_ROOM: usize = HEADER_LENGTH + SET_LENGTH + 1;

// The grid's size in nodes, gravity in 256ths of a velocity unit per step, the number of records, the number of steps, the kind of
// the edge (0 open, 1 sticky, 2 slip) and its width in nodes, and drag in 256ths of a node's velocity. Kind and width are numbers
// and no edge: a write answers for every one of them.
#[derive(Clone, Copy)]
pub struct Header {
    pub nx: usize,
    pub ny: usize,
    pub gx: i16,
    pub gy: i16,
    pub count: usize,
    pub steps: usize,
    pub kind: usize,
    pub width: usize,
    pub drag: usize,
}
