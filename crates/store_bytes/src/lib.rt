// Bytes of a store: tests of them, and bytes written with zeros after them.
#![tactic(auto)]

ghost use Rattle.std.specs.Prelude.{◌≡◌, ◌≤◌, eqb, length, replicate};
ghost use Rattle.store.specs.Names.{all_zero, same_bytes, letters, valid_name, padded};

use store::NAME_LENGTH;

// So many bytes are looked at before a test: an empty store takes 3 µs so, and 119 µs with a test of every byte.
const BLOCK: usize = 512;

// The bits of all bytes: 0 where each is zero. `all_zero` calls it with a block, and with what is left behind the last.
fn joined(bytes: &[u8]) -> u8
    ensures { eqb result 0 ≡ all_zero bytes.now }
{
    bytes.iter().fold(0, |all, b| all | *b)
}

// All bytes are zero.
pub fn all_zero(bytes: &[u8]) -> bool
    ensures { result ≡ all_zero bytes.now }
{
    let (blocks, rest) = bytes.as_chunks::<BLOCK>();
    blocks.iter().all(|block| joined(block) == 0) && joined(rest) == 0
}

// Both are the same bytes.
pub fn same(bytes: &[u8], other: &[u8]) -> bool
    ensures { result ≡ same_bytes bytes.now other.now }
{
    bytes == other
}

// How many letters A to Z the bytes begin with.
pub fn letters(bytes: &[u8]) -> usize
    ensures { result ≡ letters bytes.now }
{
    bytes.iter().take_while(|b| b.is_ascii_uppercase()).count()
}

// A name as it is given: 1 to 8 letters and nothing else.
#[tactic(auto, unfolding(store::specs::Names::valid_name), using(std::proofs::lemmas::Bool::Decides::nat_tests))]
pub fn valid_name(name: &[u8]) -> bool
    ensures { result ≡ valid_name name.now }
{
    1 <= name.len() && name.len() <= NAME_LENGTH && letters(name) == name.len()
}

// Clears the bytes.
pub fn clear(bytes: &mut [u8])
    ensures { bytes.new ≡ replicate (length bytes.old) 0 }
{
    bytes.fill(0);
}

// Writes the source, and zeros after it. Crate store_place calls it with a source that the target has room for.
pub fn fill(source: &[u8], target: &mut [u8])
    requires { length source.now ≤ length target.old }
    ensures { target.new ≡ padded (length target.old) source.now }
{
    let end = source.len();
    target[..end].copy_from_slice(source);
    clear(&mut target[end..]);
}
