// Standard input by words, and standard output. Each byte is printed as it is taken, so that whoever sends one call after the other
// sees the answer to each. A read that fails is the end of the input, and what cannot be written is passed over; what answers a
// `Result` tells of both.
ghost use Rattle.std.specs.Prelude.{◌≤◌, length, IfOk};

use crate::words::{self, Item, Number, Word};
use itoa::{Buffer, Integer};
use std::alloc::Global;
use std::fmt::Display;
use std::io::{self, Lock, Read, StdinLock, StdoutLock, Write};

// What a refusal's number is multiplied by in the answer of an exported function.
const PLACES: u64 = 0x100000000;

// The most bytes of a word, with the spaces and comments before it.
const MOST_BYTES: u32 = 65536;

#[derive(Drop)]
pub struct Console {
    pub alloc: Global,
    input: StdinLock<'static>,
    output: StdoutLock<'static>,
}

impl Console {
    pub fn new(rt: &HostRuntime) -> Console {
        Console {
            alloc: rt.alloc(),
            input: rt.stdin().lock(),
            output: rt.stdout().lock(),
        }
    }

    // The number of the next word, behind spaces and comments; a minus, wherever it stands, makes it negative. A word with too many
    // bytes, comments included, is as if the input had ended before it.
    pub fn item(&mut self) -> Item {
        let mut magnitude = 0;
        let mut negative = false;
        let mut open = false;
        let mut comment = false;
        for _ in 0..MOST_BYTES {
            let byte = self.byte();
            match byte {
                _ if comment => comment = byte != b'\n',
                b'#' => comment = true,
                b'-' => negative = true,
                b'0'.. => {
                    open = true;
                    magnitude = words::with(magnitude, byte);
                }
                b' ' if !open => {}
                _ => {
                    let number = Number::new(magnitude, negative);
                    let end = (byte != 0).then_some(byte);
                    return Item { number, end };
                }
            }
        }
        Item {
            number: Number::ZERO,
            end: None,
        }
    }

    // The next byte, which is printed, or 0 where the input has ended.
    fn byte(&mut self) -> u8 {
        let mut one = [0];
        match self.input.read(&mut one) {
            Ok(1) => {
                self.put(&one);
                one[0]
            }
            _ => 0,
        }
    }

    // The next numbers, as many as the caller names.
    pub fn numbers<const N: usize>(&mut self) -> [Number; N] {
        let mut numbers = [Number::ZERO; N];
        for number in &mut numbers {
            *number = self.item().number;
        }
        numbers
    }

    // A list of numbers behind its length. The last number fills the room to its end, and the room is lent as far as the length says.
    pub fn list<'a, T: From<Number> + Copy>(&mut self, room: &'a mut [T]) -> &'a mut [T]
        ensures { length result.now ≤ length room.old }
    {
        let mut word = self.item();
        let length = room.len().min(word.number.into());
        for place in room.iter_mut() {
            if word.end == Some(b' ') {
                word = self.item();
            }
            *place = T::from(word.number);
        }
        &mut room[..length]
    }

    // A write that fails is passed over, with what is left of the bytes.
    fn put(&mut self, bytes: &[u8]) {
        let mut left = bytes;
        for _ in 0..bytes.len() {
            if left.is_empty() {
                return;
            }
            match self.output.write(left) {
                Ok(put) if put > 0 => left = &left[put..],
                _ => return,
            }
        }
    }

    // A number behind what stands on the line.
    pub fn put_value<I: Integer>(&mut self, value: I) {
        let mut buffer = Buffer::new();
        let digits = buffer.format(value).as_bytes();
        self.put(b" ");
        match digits.split_first() {
            Some((b'-', size)) => {
                self.put(b"-");
                self.put(size);
            }
            _ => self.put(digits),
        }
    }

    // A line begins with a letter.
    pub fn begin(&mut self, letter: u8) {
        self.put(&[letter]);
    }

    pub fn end(&mut self) {
        self.put(b"\n");
    }

    // A letter and numbers, on a line of their own.
    pub fn integers<I: Integer + Copy>(&mut self, letter: u8, values: &[I]) {
        self.begin(letter);
        for value in values {
            self.put_value(*value);
        }
        self.end();
    }

    // The answer of an exported function: the refusal, 0 for none, and its place.
    pub fn answer(&mut self, code: u64) {
        self.integers(b'=', &[code / PLACES, code % PLACES]);
    }
}

// What tells of a stream that fails, and of memory that runs out.
impl Console {
    // The next word in its bytes, behind spaces and comments. One with too many bytes, comments included, is as if the input had
    // ended before it.
    pub fn word(&mut self) -> io::Result<Word>
        ensures { IfOk result (λ w. length w.bytes.items ≤ 65535) }
    {
        word_from(&mut self.input, &mut self.output, self.alloc)
    }

    // A letter and what is printed of each value, on a line of their own.
    pub fn values<T: Display>(&mut self, letter: char, values: &[T]) -> io::Result<()> {
        write!(self.output, "{letter}")?;
        for value in values {
            write!(self.output, " {value}")?;
        }
        writeln!(self.output)
    }

    // Nothing is held back, so that there is nothing to fail.
    pub fn flush(&mut self) -> io::Result<()> {
        self.output.flush()
    }
}

// The next word of an input, each byte of which is printed. `Console::word` calls it.
pub(crate) fn word_from<R: Read, W: Write>(
    input: &mut R,
    output: &mut W,
    alloc: Global,
) -> io::Result<Word>
    ensures most { IfOk result (λ w. length w.bytes.items ≤ 65535) }
{
    let mut bytes = Vec::new(alloc);
    let mut open = false;
    let mut comment = false;
    for _ in 0..MOST_BYTES {
        let byte = taken(input, output)?;
        match byte {
            _ if comment => comment = byte != b'\n',
            b'#' => comment = true,
            b'-' | b'0'.. => {
                open |= byte != b'-';
                bytes.push(byte)?;
            }
            b' ' if !open => {}
            _ => {
                let end = (byte != 0).then_some(byte);
                return Ok(Word { bytes, end });
            }
        }
    }
    Ok(Word {
        bytes: Vec::new(alloc),
        end: None,
    })
}

// The next byte, which is printed, or 0 where the input has ended.
fn taken<R: Read, W: Write>(input: &mut R, output: &mut W) -> io::Result<u8> {
    match input.by_ref().bytes().next() {
        Some(byte) => {
            let byte = byte?;
            output.write_all(&[byte])?;
            Ok(byte)
        }
        None => Ok(0),
    }
}
