// Text at the beginning of a lent buffer. Decimal numbers and what is put stand in specs/, the laws of putting one text behind
// another in proofs/.
#![tactic(auto)]

ghost use Rattle.std.specs.Prelude.{◌≡◌, [], ◌∷◌};
ghost use Rattle.text.specs.Internal.{Begun, Room, Put};

// A text, and the buffer that it begins. Whoever puts more behind it has to know that there is room.
#[derive(Drop)]
pub struct Text<'a> {
    buffer: &'a mut [u8],
    length: usize,
}

impl<'a> Text<'a> {
    // No text yet. Crate report_text calls it.
    pub fn new(buffer: &'a mut [u8]) -> Text<'a>
        ensures { Begun buffer.entry result }
    {
        Text { buffer, length: 0 }
    }

    // Crate report_text calls it.
    pub fn length(&self) -> usize
        ensures { result ≡ self.now.length }
    {
        self.length
    }

    // Puts a byte behind the text. Crate phrases calls it.
    pub fn put_byte(&mut self, byte: u8)
        requires { Room self.old (byte ∷ []) }
        ensures { Put self.old (byte ∷ []) self.new }
    {
        self.buffer[self.length] = byte;
        self.length += 1;
    }

    // Puts bytes behind the text. Crate numerals calls it.
    pub fn put_bytes(&mut self, bytes: &[u8])
        requires { Room self.old bytes.now }
        ensures { Put self.old bytes.now self.new }
    {
        let end = self.length + bytes.len();
        self.buffer[self.length..end].copy_from_slice(bytes);
        self.length = end;
    }
}
