// Words, and the numbers that they make.
ghost use Rattle.std.specs.Prelude.{◌≡◌};
ghost use Rattle.lines.specs.Words.{Signed, bits, has_minus, with_byte, with_word};

// The number that a word makes, and the byte behind the word, which is none where the input has ended.
#[derive(Clone, Copy)]
pub struct Item {
    pub number: Number,
    pub end: Option<u8>,
}

// A name or a number in its bytes, and the byte behind it, which is none where the input has ended.
#[derive(Drop)]
pub struct Word {
    pub bytes: Vec<u8>,
    pub end: Option<u8>,
}

impl Word {
    // A minus, wherever it stands, makes the number negative.
    pub fn number(&self) -> Number
        ensures { Signed (bits result) (has_minus self.now.bytes.items) (with_word 0 self.now.bytes.items) }
    {
        Number::new(magnitude(&self.bytes), self.bytes.contains(&b'-'))
    }
}

// The number that a word's digits and letters make, or the largest where it is too large. A letter counts as a byte behind what stands
// before. A minus is passed over.
#[tactic(auto, unfolding(crate::specs::Words::with_word), using(std::proofs::lemmas::List::at_drop_more, std::proofs::lemmas::List::at_drop_all, std::proofs::lemmas::Bool::Decides::nat_tests))]
pub fn magnitude(word: &[u8]) -> u64
    ensures { result ≡ with_word 0 word.now }
{
    let mut number = 0;
    for byte in word {
        if *byte != b'-' {
            number = with(number, *byte);
        }
    }
    number
}

// A word's number with one more letter or digit, or the largest where it is too large. A letter counts as a byte behind what stands
// before.
#[tactic(auto, unfolding(crate::specs::Words::with_byte), using(std::proofs::lemmas::Bool::Decides::nat_tests))]
pub(crate) fn with(number: u64, byte: u8) -> u64
    ensures { result ≡ with_byte number byte }
{
    match byte {
        b'a'.. => number.wrapping_shl(8) | u64::from(byte),
        _ => number
            .checked_mul(10)
            .and_then(|tens| tens.checked_add(u64::from(byte % 48)))
            .unwrap_or(u64::MAX),
    }
}

// A number in 64 bits, below zero as two's complement. A type that is smaller takes its lowest bits.
#[derive(Clone, Copy)]
pub struct Number(u64);

impl Number {
    pub const ZERO: Number = Number(0);

    pub(crate) fn new(magnitude: u64, negative: bool) -> Number
        ensures { Signed (bits result) negative magnitude }
    {
        if negative {
            Number(magnitude.wrapping_neg())
        } else {
            Number(magnitude)
        }
    }
}

impl From<u64> for Number {
    fn from(bits: u64) -> Number {
        Number(bits)
    }
}

impl From<Number> for u64 {
    fn from(number: Number) -> u64
        ensures { result ≡ bits number }
    {
        number.0
    }
}

impl From<Number> for usize {
    fn from(number: Number) -> usize {
        number.0 as usize
    }
}

impl From<Number> for i64 {
    fn from(number: Number) -> i64 {
        number.0.cast_signed()
    }
}

impl From<Number> for u16 {
    fn from(number: Number) -> u16 {
        (number.0 % 65536) as u16
    }
}

impl From<Number> for u8 {
    fn from(number: Number) -> u8 {
        (number.0 % 256) as u8
    }
}
