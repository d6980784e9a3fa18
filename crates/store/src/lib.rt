// A store of baths: a lent buffer that holds up to four bath files, each under a name. Its form, what the operations on it do and
// what follows stand in specs/, the proofs in proofs/.
#![tactic(auto)]

use bath_file::HEADER_LENGTH;
use particles::SET_LENGTH;

// The longest name in bytes, and the longest file.
pub const NAME_LENGTH: usize = 8;

pub const MOST_FILE: usize = HEADER_LENGTH + SET_LENGTH;

// A place is a name and room for a file, and a store so many places.
pub const PLACE_LENGTH: usize = NAME_LENGTH + MOST_FILE;

pub const PLACE_COUNT: usize = 4;

pub const STORE_LENGTH: usize = PLACE_LENGTH * PLACE_COUNT;
