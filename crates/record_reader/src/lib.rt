// The record reader: a particle from the bytes of its record.
#![tactic(auto)]

ghost use Rattle.std.specs.Prelude.{◌≡◌, length};
ghost use Rattle.refusal.specs.Refused.{told};
ghost use Rattle.particle.specs.Layout.{record_length};
ghost use Rattle.particle.specs.Record.{particle_of, numbers, read_particle, read_answer};

use particle::{NUMBERS, Particle, RECORD_LENGTH};
use refusal::Refusal;

// The numbers that a record's fields can hold beside the valid ones.
const NO_MASS: u16 = limits::LEAST_MASS - 1;

const NO_VELOCITY: i16 = limits::LEAST_VELOCITY - 1;

const NO_AFFINE: i16 = limits::LEAST_AFFINE - 1;

// The particle that a record of the right length holds, valid or not: two words of eight bytes, and the fields from them. The
// record reader calls it, and so does whoever reads a record of an accepted set.
pub fn unpack(bytes: &[u8]) -> Particle
    requires { length bytes.now ≡ record_length }
    ensures { result ≡ particle_of bytes.now }
{
    let first = bits::word(bytes, 0);
    let second = bits::word(bytes, 7);
    Particle {
        identifier: bits::low(first / 281474976710656),
        mass: bits::low(first / 274877906944) % 1024,
        x: bits::low(first / 67108864) % 4096,
        y: bits::low(first / 16384) % 4096,
        vx: bits::signed_low(bits::low(first / 128), 7),
        vy: bits::signed_low(bits::low(first), 7),
        bxx: bits::signed_low(bits::low(second / 17592186044416), 12),
        bxy: bits::signed_low(bits::low(second / 4294967296), 12),
        byx: bits::signed_low(bits::low(second / 1048576), 12),
        byy: bits::signed_low(bits::low(second / 256), 12),
        marks: (bits::low(second) % 256) as u8,
    }
}

// The numbers of a particle, in the order of its record's fields: by name, since `From` would not say which order.
pub fn numbers_of(p: Particle) -> [i64; NUMBERS]
    ensures { result ≡ numbers p }
{
    [
        i64::from(p.identifier),
        i64::from(p.mass),
        i64::from(p.x),
        i64::from(p.y),
        i64::from(p.vx),
        i64::from(p.vy),
        i64::from(p.bxx),
        i64::from(p.bxy),
        i64::from(p.byx),
        i64::from(p.byy),
        i64::from(p.marks),
    ]
}

// The answer for a particle that was read from the record with this index. `read_indexed` calls it.
fn check_read(p: Particle, index: usize) -> Result<Particle, Refusal>
    ensures { told result ≡ read_particle index p }
{
    if p.mass == NO_MASS {
        return Err(Refusal::Mass(index));
    }
    if limits::one_is(p.vx, p.vy, NO_VELOCITY) {
        return Err(Refusal::Velocity(index));
    }
    // B by its columns: what is compiled is shorter than by its rows.
    if limits::one_is(p.bxx, p.byx, NO_AFFINE) {
        return Err(Refusal::Affine(index));
    }
    if limits::one_is(p.bxy, p.byy, NO_AFFINE) {
        return Err(Refusal::Affine(index));
    }
    Ok(p)
}

// The record reader: any slice, as the record with this index of its set. The walks over a set hand it the part that starts at
// the record's place.
pub fn read_indexed(bytes: &[u8], index: usize) -> Result<Particle, Refusal>
    ensures { told result ≡ read_answer index bytes.now }
{
    if bytes.len() != RECORD_LENGTH {
        return Err(Refusal::Length);
    }
    check_read(unpack(bytes), index)
}

// Read a record: any slice.
pub fn read_record(bytes: &[u8]) -> Result<Particle, Refusal>
    ensures { told result ≡ read_answer 0 bytes.now }
{
    read_indexed(bytes, 0)
}
