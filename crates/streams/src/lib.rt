// Standard input read to its end, and a text written whole: a failure is told apart from an end.
#![tactic(auto)]

ghost use Rattle.std.specs.Prelude.{◌≤◌, length, IfOk, OnOk};
ghost use Rattle.std.specs.Io.KnownBytes.{Appends};

use std::io::{ErrorKind, Read, Result, Write};

// The most calls that one input or one text takes: one for each byte, and those that a signal interrupted.
const MOST_CALLS: u32 = 1000000;

// Reads until the input ends or the buffer is full, and answers how many bytes that were; a read into no room answers 0, as at the
// end. A call that a signal interrupted before it moved a byte is made again. std reads to an end only into memory of the heap.
pub fn read_all<R: Read>(input: &mut R, buffer: &mut [u8]) -> Result<usize>
    ensures { IfOk result (λ n. n ≤ length buffer.new) }
{
    let mut done = 0;
    for _ in 0..MOST_CALLS {
        match input.read(&mut buffer[done..]) {
            Ok(0) => return Ok(done),
            Ok(got) => done += got,
            Err(failure) => {
                if failure.kind() != ErrorKind::Interrupted {
                    return Err(failure);
                }
            }
        }
    }
    Err(ErrorKind::Interrupted.into())
}

// Writes all of a text, by as many calls at most: std's own `write_all` makes an interrupted call again without end.
pub fn write_all<W: Write>(output: &mut W, text: &[u8]) -> Result<()>
    ensures { OnOk result (Appends (W.contents output.old) (W.contents output.new) text.now) }
{
    let mut left = text;
    for _ in 0..MOST_CALLS {
        if left.is_empty() {
            return Ok(());
        }
        match output.write(left) {
            Ok(0) => return Err(ErrorKind::WriteZero.into()),
            Ok(put) => left = &left[put..],
            Err(failure) => {
                if failure.kind() != ErrorKind::Interrupted {
                    return Err(failure);
                }
            }
        }
    }
    Err(ErrorKind::Interrupted.into())
}
