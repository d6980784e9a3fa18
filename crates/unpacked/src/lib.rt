// Particles as one array of numbers: specs/ says how. Here is what reads it.
#![tactic(auto)]

ghost use Rattle.std.specs.Prelude.{◌≡◌, ◌<◌, length, get_or, pos, nat_abs};
ghost use Rattle.unpacked.specs.Unpacked.{NaturalAt, ReadableAt, ReadsAt};

use particle::Particle;

// How many numbers a particle has in an array.
pub const NUMBERS: usize = 9;

// The number at a place of an array. Crates scatter_core and gather_core call it.
pub fn number_at(array: &[i16], at: usize) -> i64
    requires { at < length array.now }
    ensures { result ≡ get_or array.now at (pos 0) }
{
    i64::from(array[at])
}

// The number at a place where none is below zero: a mass or a coordinate. `particle_at`, and crates scatter_core and gather_core
// call it.
pub fn natural_at(array: &[i16], at: usize) -> u16
    requires { NaturalAt array.now at }
    ensures { result ≡ nat_abs (get_or array.now at (pos 0)) }
{
    array[at] as u16
}

// The particle with index k, with this identifier and these marks. Crate packing calls it.
pub fn particle_at(array: &[i16], k: usize, identifier: u16, marks: u8) -> Particle
    requires { ReadableAt array.now k }
    ensures { ReadsAt array.now k identifier marks result }
{
    let at = NUMBERS * k;
    Particle {
        identifier,
        mass: natural_at(array, at),
        x: natural_at(array, at + 1),
        y: natural_at(array, at + 2),
        vx: array[at + 3],
        vy: array[at + 4],
        bxx: array[at + 5],
        bxy: array[at + 6],
        byx: array[at + 7],
        byy: array[at + 8],
        marks,
    }
}
