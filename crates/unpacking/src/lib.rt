// A particle set's records into one array of numbers.
#![tactic(auto)]

ghost use Rattle.std.specs.Prelude.{◌≡◌, ◌+◌, ◌*◌, ◌≤◌, length};
ghost use Rattle.arith.specs.Lists.{placed};
ghost use Rattle.particle.specs.Layout.{record_length};
ghost use Rattle.particles.specs.Set.{record_count, particle_in, particles_in};
ghost use Rattle.unpacked.specs.Unpacked.{per_particle, numbers, unpacked};
ghost use Rattle.unpacking.specs.Internal.{Narrow};

use particle::{Particle, RECORD_LENGTH};
use unpacked::NUMBERS;

// Stores the numbers of the particle with index k, in the order of its record's fields. `unpack_set` calls it with a particle
// from a record.
fn put_particle(p: Particle, k: usize, array: &mut [i16])
    requires { Narrow p × (per_particle * k + per_particle ≤ length array.old) }
    ensures { array.new ≡ placed array.old (per_particle * k) (numbers p) }
{
    let at = NUMBERS * k;
    // One by one: `copy_from_slice` from an array takes twice the time.
    array[at] = p.mass as i16;
    array[at + 1] = p.x as i16;
    array[at + 2] = p.y as i16;
    array[at + 3] = p.vx;
    array[at + 4] = p.vy;
    array[at + 5] = p.bxx;
    array[at + 6] = p.bxy;
    array[at + 7] = p.byx;
    array[at + 8] = p.byy;
}

// The particle in the record with index k. Crate packing calls it.
pub fn particle_in(records: &[u8], k: usize) -> Particle
    requires { record_length * k + record_length ≤ length records.now }
    ensures { result ≡ particle_in records.now k }
{
    let at = RECORD_LENGTH * k;
    record_reader::unpack(&records[at..at + RECORD_LENGTH])
}

// Unpacks every record. Crates transfer_part and run_set call it with an array of as many numbers as the records have.
pub fn unpack_set(records: &[u8], array: &mut [i16])
    requires { length array.old ≡ per_particle * record_count records.now }
    ensures { array.new ≡ unpacked (particles_in records.now) }
{
    let count = records.len() / RECORD_LENGTH;
    for k in 0..count {
        put_particle(particle_in(records, k), k, array);
    }
}
