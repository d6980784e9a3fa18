// The program on its streams: an input read, run and reported.
// Standard error gets one line where the file is refused, or the input or the report fails; `run` answers with it.
#![tactic(auto)]

ghost use Rattle.std.specs.Prelude.{◌≤◌, length};

use bath_file::FILE_ROOM;
use program::MOST_NODES;
use report::REPORT_LENGTH;
use std::io::{Read, Write};

// Writes the text at the beginning of a buffer, that of a refused file to standard error too, or else says there that it could not.
// A line that standard error does not take has nowhere else to go. `answer` calls it.
fn deliver<O: Write, E: Write>(
    output: &mut O,
    errors: &mut E,
    text: &[u8],
    end: usize,
    refused: bool,
)
    requires { end ≤ length text.now }
{
    let report = &text[..end];
    if streams::write_all(output, report).is_err() {
        let _ = streams::write_all(errors, b"report could not be written in full\n");
    } else if refused {
        let _ = streams::write_all(errors, report);
    }
}

// Runs the file at the beginning of a buffer, and reports it. `serve` calls it.
fn answer<O: Write, E: Write>(
    output: &mut O,
    errors: &mut E,
    file: &mut [u8],
    end: usize,
    mass: &mut [u64; MOST_NODES],
    px: &mut [i64; MOST_NODES],
    py: &mut [i64; MOST_NODES],
    text: &mut [u8; REPORT_LENGTH],
)
    requires { end ≤ length file.old }
{
    let printed = run_file::run_file(&mut file[..end], mass, px, py, text);
    deliver(output, errors, text, printed.length, printed.refused);
}

// Reads, runs and reports. Whatever the buffers hold before, what is printed comes out the same.
pub fn serve<I: Read, O: Write, E: Write>(
    input: &mut I,
    output: &mut O,
    errors: &mut E,
    file: &mut [u8; FILE_ROOM],
    mass: &mut [u64; MOST_NODES],
    px: &mut [i64; MOST_NODES],
    py: &mut [i64; MOST_NODES],
    text: &mut [u8; REPORT_LENGTH],
) {
    match input::read_input(input, file) {
        Ok(length) => answer(output, errors, file, length, mass, px, py, text),
        Err(_) => {
            let _ = streams::write_all(errors, b"input could not be read\n");
        }
    }
}
