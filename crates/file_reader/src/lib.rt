// The file reader: the header of a bath file, and then its records.
#![tactic(auto)]

ghost use Rattle.std.specs.Prelude.{◌≡◌, length};
ghost use Rattle.refusal.specs.Refused.{gives, told};
ghost use Rattle.limits.specs.declared.Caller.TheVariants.{Bench};
ghost use Rattle.bath_file.specs.Layout.{header_length};
ghost use Rattle.bath_file.specs.File.{header_in, checked_header, spare_is_zero, header_answer, records_answer, file_answer};

use bath_file::{HEADER_LENGTH, Header};
use limits::Caller;
use particle::RECORD_LENGTH;
use refusal::Refusal;

// The header that bytes of its length hold: two words of eight bytes, the second from the fourth byte on, and the fields from them.
// `read_header` calls it with as many, and so does crate store_form.
pub fn unpack(bytes: &[u8]) -> Header
    requires { length bytes.now ≡ header_length }
    ensures { result ≡ header_in bytes.now }
{
    let first = bits::word(bytes, 0);
    let second = bits::word(bytes, 3);
    Header {
        nx: usize::from(bits::low(first / 288230376151711744)),
        ny: usize::from(bits::low(first / 4503599627370496) % 64),
        gx: bits::signed_low(bits::low(first / 274877906944), 14),
        gy: bits::signed_low(bits::low(first / 16777216), 14),
        count: usize::from(bits::low(first / 2048) % 8192),
        steps: usize::from(bits::low(second / 2097152) % 16384),
        kind: usize::from(bits::low(second / 16384) % 4),
        width: usize::from(bits::low(second / 4096) % 4),
        drag: usize::from(bits::low(second / 16) % 256),
    }
}

// No spare bit of a header is set, neither after the steps nor after drag. `read_header` calls it with as many bytes.
fn spare_is_zero(bytes: &[u8]) -> bool
    requires { length bytes.now ≡ header_length }
    ensures { result ≡ spare_is_zero bytes.now }
{
    bytes[8] % 32 == 0 && bytes[10] % 16 == 0
}

// The header of a file of any length, without its records.
pub fn read_header(caller: Caller, bytes: &[u8]) -> Result<Header, Refusal>
    ensures { told result ≡ header_answer caller bytes.now }
{
    if bytes.len() < HEADER_LENGTH {
        return Err(Refusal::Length);
    }
    let header = &bytes[..HEADER_LENGTH];
    let h = header_check::check_values(caller, unpack(header))?;
    if !spare_is_zero(header) {
        return Err(Refusal::SpareBits);
    }
    Ok(h)
}

// The answer for a file with this header: its length, and then its records. `read_file` calls it.
fn check_records(h: Header, bytes: &[u8]) -> Result<Header, Refusal>
    requires { checked_header Bench h (gives h) ≡ gives h }
    ensures { told result ≡ records_answer h bytes.now }
{
    let count = h.count;
    if bytes.len() != HEADER_LENGTH + RECORD_LENGTH * count {
        return Err(Refusal::Length);
    }
    particles::check(h.nx, h.ny, bytes, HEADER_LENGTH, count)?;
    Ok(h)
}

// Read a file: any bytes. The result is the header's values, and the records lie behind the header.
pub fn read_file(caller: Caller, bytes: &[u8]) -> Result<Header, Refusal>
    ensures { told result ≡ file_answer caller bytes.now }
{
    let h = read_header(caller, bytes)?;
    check_records(h, bytes)
}
