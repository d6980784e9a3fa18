// Bit fields: words of eight bytes in a buffer, parts of them by division with powers of two, and what a part stands for.
#![tactic(auto)]

ghost use Rattle.std.specs.Prelude.{◌≡◌, ◌+◌, ◌-◌, ◌*◌, ◌/◌, ◌%◌, ◌^◌, ◌≤◌, ◌<◌, length};
ghost use Rattle.std.specs.Int.Signed.{mag};
ghost use Rattle.bits.specs.Bits.{twos_complement, residue};
ghost use Rattle.bits.specs.Internal.{little_at, word_at, little_bytes, word_bytes, stored};

// Eight bytes from `at` on as one number, the first the least significant: the compiler makes one load of it. `word` calls it.
fn little(bytes: &[u8], at: usize) -> u64
    requires { at + 8 ≤ length bytes.now }
    ensures { result ≡ little_at bytes.now at }
{
    u64::from_le_bytes([
        bytes[at],
        bytes[at + 1],
        bytes[at + 2],
        bytes[at + 3],
        bytes[at + 4],
        bytes[at + 5],
        bytes[at + 6],
        bytes[at + 7],
    ])
}

// Eight bytes from `at` on as one number, the first the most significant. Whoever reads a record or a
// header calls it with a place in it.
pub fn word(bytes: &[u8], at: usize) -> u64
    requires { at + 8 ≤ length bytes.now }
    ensures { result ≡ word_at bytes.now at }
{
    little(bytes, at).swap_bytes()
}

// The low sixteen bits.
pub fn low(w: u64) -> u16
    ensures { result ≡ w % 65536 }
{
    (w % 65536) as u16
}

// The low bits of a number, `width` of them, read in two's complement: the sign is moved to the top and back. Whoever reads a
// record or a header calls it with a field's width.
pub fn signed_low(part: u16, width: u32) -> i16
    requires { (1 ≤ width) × (width ≤ 16) }
    ensures { result ≡ twos_complement (2 ^ (width - 1)) (part % 2 ^ width) }
{
    let up = 32 - width;
    ((part as i32) << up >> up) as i16
}

// The number below `span` that stands for a signed one in two's complement. Whoever writes a record or a header calls it with a
// field's span.
pub fn residue(value: i16, span: u16) -> u16
    requires { (mag value < span) × (span ≤ 16384) }
    ensures { (result ≡ residue span value) × (result < span) }
{
    (value + span as i16) as u16 % span
}

// Stores the eight bytes of a number from `at` on, the least significant first: the compiler makes one store of it. `put_word`
// calls it with a place that has eight bytes.
fn put_little(w: u64, bytes: &mut [u8], at: usize)
    requires { at + 8 ≤ length bytes.old }
    ensures { bytes.new ≡ stored (little_bytes w) bytes.old at }
{
    bytes[at..at + 8].copy_from_slice(&w.to_le_bytes());
}

// Stores the eight bytes of a number from `at` on, the most significant first. Whoever writes a record or a header calls it
// with a place that has eight bytes.
pub fn put_word(w: u64, bytes: &mut [u8], at: usize)
    requires { at + 8 ≤ length bytes.old }
    ensures { bytes.new ≡ stored (word_bytes w) bytes.old at }
{
    put_little(w.swap_bytes(), bytes, at);
}
