// Scatter and gather: how a set is cut into parts. What the two do stands in specs/, what follows from it in proofs/.
#![tactic(auto)]

use particle::RECORD_LENGTH;
use unpacked::NUMBERS;

// A set is worked on in parts of so many records, which have so many bytes and numbers.
pub const PART: usize = 64;

pub const PART_LENGTH: usize = PART * RECORD_LENGTH;

pub const PART_NUMBERS: usize = PART * NUMBERS;
