// The record writer: a particle into the bytes of its record.
#![tactic(auto)]

ghost use Rattle.std.specs.Prelude.{◌≡◌, [], ◌∷◌, length};
ghost use Rattle.refusal.specs.Refused.{gives, told};
ghost use Rattle.bits.specs.Internal.{Below};
ghost use Rattle.bits.specs.Layout.{widths, filled};
ghost use Rattle.particle.specs.Layout.{layout, record_length};
ghost use Rattle.particle.specs.Record.{record_of, write_particle, write_answer, written};

use particle::{Particle, RECORD_LENGTH};
use refusal::Refusal;

// The answer for a particle that is to be written.
fn check_write(p: Particle) -> Result<(), Refusal>
    ensures { told result ≡ write_particle p }
{
    if !limits::mass_is_valid(p.mass) {
        return Err(Refusal::Mass(0));
    }
    if !limits::both_between(p.vx, p.vy, limits::LEAST_VELOCITY, limits::MOST_VELOCITY) {
        return Err(Refusal::Velocity(0));
    }
    if !limits::both_between(p.bxx, p.bxy, limits::LEAST_AFFINE, limits::MOST_AFFINE) {
        return Err(Refusal::Affine(0));
    }
    if !limits::both_between(p.byx, p.byy, limits::LEAST_AFFINE, limits::MOST_AFFINE) {
        return Err(Refusal::Affine(0));
    }
    if !limits::position_is_valid(p.x, p.y) {
        return Err(Refusal::Position(0));
    }
    Ok(())
}

// Writes the record with these parts in its fields, as two words: the second starts with the first one's last byte. `pack`
// calls it with parts that the fields hold. Casts and no `u64::from`, with which the proof did not close.
fn put(
    identifier: u16,
    mass: u16,
    x: u16,
    y: u16,
    vx: u16,
    vy: u16,
    bxx: u16,
    bxy: u16,
    byx: u16,
    byy: u16,
    marks: u8,
    bytes: &mut [u8],
)
    requires { Below (widths layout) (identifier ∷ mass ∷ x ∷ y ∷ vx ∷ vy ∷ bxx ∷ bxy ∷ byx ∷ byy ∷ marks ∷ []) × (length bytes.old ≡ record_length) }
    ensures { bytes.new ≡ filled layout (identifier ∷ mass ∷ x ∷ y ∷ vx ∷ vy ∷ bxx ∷ bxy ∷ byx ∷ byy ∷ marks ∷ []) }
{
    let first = identifier as u64 * 281474976710656
        + mass as u64 * 274877906944
        + x as u64 * 67108864
        + y as u64 * 16384
        + vx as u64 * 128
        + vy as u64;
    let second = bxx as u64 * 17592186044416
        + bxy as u64 * 4294967296
        + byx as u64 * 1048576
        + byy as u64 * 256
        + marks as u64;
    // The first word takes the place of the second one's highest byte.
    bits::put_word(second, bytes, 7);
    bits::put_word(first, bytes, 0);
}

// Writes the record that holds a particle. `write_record` calls it with a particle that it accepts, and so does whoever packs
// a set.
pub fn pack(p: Particle, bytes: &mut [u8])
    requires { (write_particle p ≡ gives tt) × (length bytes.old ≡ record_length) }
    ensures { bytes.new ≡ record_of p }
{
    let vx = bits::residue(p.vx, 128);
    let vy = bits::residue(p.vy, 128);
    let bxx = bits::residue(p.bxx, 4096);
    let bxy = bits::residue(p.bxy, 4096);
    let byx = bits::residue(p.byx, 4096);
    let byy = bits::residue(p.byy, 4096);
    put(
        p.identifier,
        p.mass,
        p.x,
        p.y,
        vx,
        vy,
        bxx,
        bxy,
        byx,
        byy,
        p.marks,
        bytes,
    );
}

// Write a record: any numbers, any buffer. A refused call leaves the buffer as it was.
#[tactic(auto, unfolding(particle::specs::Record::write_answer, particle::specs::Record::written), using(std::proofs::lemmas::Bool::Decides::nat_tests))]
pub fn write_record(p: Particle, bytes: &mut [u8]) -> Result<(), Refusal>
    ensures answer { told result ≡ write_answer p bytes.old }
    ensures buffer { bytes.new ≡ written p bytes.old }
{
    if bytes.len() != RECORD_LENGTH {
        return Err(Refusal::Length);
    }
    check_write(p)?;
    pack(p, bytes);
    Ok(())
}
