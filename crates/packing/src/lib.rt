// An array of numbers back into a particle set's records. Identifiers and marks stay in the records: whoever packs a set packs
// it into the records that it was unpacked from.
#![tactic(auto)]

ghost use Rattle.std.specs.Prelude.{◌≡◌, ◌+◌, ◌*◌, ◌/◌, ◌≤◌, length};
ghost use Rattle.particle.specs.Layout.{record_length};
ghost use Rattle.unpacked.specs.Unpacked.{per_particle};
ghost use Rattle.packing.specs.Packing.{Packable, Packs};
ghost use Rattle.packing.specs.Internal.{PackableAt, PacksAt};

use limits::MOST_RECORDS;
use particle::RECORD_LENGTH;
use unpacked::NUMBERS;

// How many numbers the largest set has.
pub const SET_NUMBERS: usize = MOST_RECORDS * NUMBERS;

// One turn of `pack_set`: the particle goes to the record writer, with the identifier and the marks that its record holds.
fn pack_particle(array: &[i16], k: usize, records: &mut [u8])
    requires { PackableAt array.now k × (record_length * k + record_length ≤ length records.old) }
    ensures { PacksAt array.now k records.old records.new }
{
    let at = RECORD_LENGTH * k;
    let old = unpacking::particle_in(records, k);
    let p = unpacked::particle_at(array, k, old.identifier, old.marks);
    record_writer::pack(p, &mut records[at..at + RECORD_LENGTH]);
}

// Packs every particle. Crates gather and run_set call it with the particles of the set in the records.
pub fn pack_set(array: &[i16], records: &mut [u8])
    requires { Packable array.now × (length records.old ≡ record_length * (length array.now / per_particle)) }
    ensures { Packs array.now records.old records.new }
{
    let count = array.len() / NUMBERS;
    for k in 0..count {
        pack_particle(array, k, records);
    }
}
