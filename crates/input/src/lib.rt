// Standard input, as far as it decides what is printed.
#![tactic(auto)]

ghost use Rattle.std.specs.Prelude.{◌≡◌, ◌≤◌, length, IfOk};
ghost use Rattle.bath_file.specs.File.{room_for_file};

use bath_file::FILE_ROOM;
use std::io::{Read, Result};

// Reads an input to its end, or as many bytes of it as the law of longer inputs speaks of.
pub fn read_input<R: Read>(input: &mut R, file: &mut [u8; FILE_ROOM]) -> Result<usize>
    ensures { IfOk result (λ n. n ≤ length file.new) × (length file.new ≡ room_for_file) }
{
    streams::read_all(input, file)
}
