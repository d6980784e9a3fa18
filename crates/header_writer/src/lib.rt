// The header writer: a header's values into its bytes.
#![tactic(auto)]

ghost use Rattle.std.specs.Prelude.{◌≡◌, [], ◌∷◌, length};
ghost use Rattle.refusal.specs.Refused.{gives, told};
ghost use Rattle.limits.specs.declared.Caller.TheVariants.{Bench};
ghost use Rattle.bits.specs.Internal.{Below};
ghost use Rattle.bits.specs.Layout.{widths, filled};
ghost use Rattle.bath_file.specs.Layout.{layout, header_length};
ghost use Rattle.bath_file.specs.File.{header_of, checked_header, write_answer, written};

use bath_file::{HEADER_LENGTH, Header};
use limits::Caller;
use refusal::Refusal;

// Writes the header with these parts in its fields, and no spare bit set, as two words: the second starts with the first one's last
// five bytes. `pack` calls it with parts that the fields hold.
fn put(
    nx: u16,
    ny: u16,
    gx: u16,
    gy: u16,
    count: u16,
    steps: u16,
    kind: u16,
    width: u16,
    drag: u16,
    bytes: &mut [u8],
)
    requires { Below (widths layout) (nx ∷ ny ∷ gx ∷ gy ∷ count ∷ steps ∷ 0 ∷ kind ∷ width ∷ drag ∷ 0 ∷ []) × (length bytes.old ≡ header_length) }
    ensures { bytes.new ≡ filled layout (nx ∷ ny ∷ gx ∷ gy ∷ count ∷ steps ∷ 0 ∷ kind ∷ width ∷ drag ∷ 0 ∷ []) }
{
    let first = u64::from(nx) * 288230376151711744
        + u64::from(ny) * 4503599627370496
        + u64::from(gx) * 274877906944
        + u64::from(gy) * 16777216
        + u64::from(count) * 2048
        + u64::from(steps / 8);
    let second = u64::from(steps % 8) * 2097152
        + u64::from(kind) * 16384
        + u64::from(width) * 4096
        + u64::from(drag) * 16;
    // The first word takes the place of the second one's five highest bytes.
    bits::put_word(second, bytes, 3);
    bits::put_word(first, bytes, 0);
}

// Writes the bytes that hold a header. `write_header` calls it with a header that it accepts.
fn pack(h: Header, bytes: &mut [u8])
    requires { (checked_header Bench h (gives h) ≡ gives h) × (length bytes.old ≡ header_length) }
    ensures { bytes.new ≡ header_of h }
{
    let gx = bits::residue(h.gx, 16384);
    let gy = bits::residue(h.gy, 16384);
    put(
        h.nx as u16,
        h.ny as u16,
        gx,
        gy,
        h.count as u16,
        h.steps as u16,
        h.kind as u16,
        h.width as u16,
        h.drag as u16,
        bytes,
    );
}

// Write a header: any numbers, any buffer, by the bench's limits. A refused call leaves the buffer as it was.
pub fn write_header(h: Header, bytes: &mut [u8]) -> Result<(), Refusal>
    ensures answer { told result ≡ write_answer h bytes.old }
    ensures buffer { bytes.new ≡ written h bytes.old }
{
    if bytes.len() != HEADER_LENGTH {
        return Err(Refusal::Length);
    }
    let accepted = header_check::check_values(Caller::Bench, h)?;
    pack(accepted, bytes);
    Ok(())
}
