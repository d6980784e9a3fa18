// A particle set: its records checked one after the other.
#![tactic(auto)]

ghost use Rattle.std.specs.Prelude.{◌≡◌, ◌+◌, ◌*◌, ◌≤◌, ◌&&◌, leb, length};
ghost use Rattle.refusal.specs.Refused.{told};
ghost use Rattle.limits.specs.Limits.{least_side, most_side, most_records};
ghost use Rattle.particle.specs.Layout.{record_length};
ghost use Rattle.spline.specs.Spline.{on_axis};
ghost use Rattle.apic.specs.Limits.{SizeLimits};
ghost use Rattle.particles.specs.Set.{valid_size, valid_length};
ghost use Rattle.particles.specs.Walk.{check_particle, check_record, counted};

use limits::{LEAST_SIDE, MOST_RECORDS, MOST_TOTAL_MASS};
use particle::{Particle, RECORD_LENGTH};
use refusal::Refusal;

// The length in bytes of the largest set: 61,440.
pub const SET_LENGTH: usize = RECORD_LENGTH * MOST_RECORDS;

// How far a check has come: one more than the last identifier, and the mass so far.
#[derive(Drop)]
pub struct Entry {
    pub least: u64,
    pub mass: u64,
}

// Whether a coordinate is on an axis of n nodes. `check_particle` calls it with a size in range.
fn on_axis(n: usize, x: u16) -> bool
    requires { (least_side ≤ n) × (n ≤ most_side) }
    ensures { result ≡ on_axis n x }
{
    let place = x as usize;
    32 <= place && place <= 64 * (n - 1) - 33
}

// The checks of a record that its set decides. Every walk over a set calls it, with a mass that so many records can have.
pub fn check_particle(
    p: Particle,
    k: usize,
    nx: usize,
    ny: usize,
    entry: Entry,
) -> Result<Entry, Refusal>
    requires { SizeLimits nx ny × (entry.mass ≤ most_records * 65535) }
    ensures { told result ≡ check_particle nx ny k entry p }
{
    if !on_axis(nx, p.x) {
        return Err(Refusal::Position(k));
    }
    if !on_axis(ny, p.y) {
        return Err(Refusal::Position(k));
    }
    if (p.identifier as u64) < entry.least {
        return Err(Refusal::Identifier(k));
    }
    let mass = entry.mass + p.mass as u64;
    if MOST_TOTAL_MASS < mass {
        return Err(Refusal::TotalMass(k));
    }
    Ok(Entry {
        least: p.identifier as u64 + 1,
        mass,
    })
}

// One turn of the check: the part that starts at the record goes to the record reader, and its answer is taken apart.
// `check` calls it.
fn check_record(
    nx: usize,
    ny: usize,
    bytes: &[u8],
    start: usize,
    k: usize,
    entry: Entry,
) -> Result<Entry, Refusal>
    requires { SizeLimits nx ny × (entry.mass ≤ most_records * 65535) × (start + record_length * k + record_length ≤ length bytes.now) }
    ensures { told result ≡ check_record nx ny start bytes.now k entry }
{
    let at = start + RECORD_LENGTH * k;
    let p = record_reader::read_indexed(&bytes[at..at + RECORD_LENGTH], k)?;
    check_particle(p, k, nx, ny, entry)
}

// Checks `count` records from byte `start` on. Every operation on a set calls it, and so does whoever has records behind
// a header.
pub fn check(
    nx: usize,
    ny: usize,
    bytes: &[u8],
    start: usize,
    count: usize,
) -> Result<usize, Refusal>
    requires { SizeLimits nx ny × (count ≤ most_records) × (start + record_length * count ≤ length bytes.now) }
    ensures { told result ≡ counted nx ny start bytes.now count }
{
    let mut entry = Entry { least: 0, mass: 0 };
    for k in 0..count {
        entry = check_record(nx, ny, bytes, start, k, entry)?;
    }
    Ok(count)
}

// Whether Nx and Ny are from 4 to `most`, a caller's limit. Every operation on a grid begins with it.
pub fn size_is_valid(most: usize, nx: usize, ny: usize) -> bool
    ensures { result ≡ valid_size most nx ny }
{
    is_side(most, nx) && is_side(most, ny)
}

fn is_side(most: usize, n: usize) -> bool
    ensures { result ≡ leb least_side n && leb n most }
{
    LEAST_SIDE <= n && n <= most
}

// Whether as many bytes are whole records, and not too many. Every operation on a set begins with it.
pub fn length_is_valid(bytes: usize) -> bool
    ensures { result ≡ valid_length bytes }
{
    bytes % RECORD_LENGTH == 0 && bytes <= SET_LENGTH
}
