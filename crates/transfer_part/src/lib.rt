// Some records of a set, unpacked and scattered, or unpacked and gathered.
#![tactic(auto)]

ghost use Rattle.std.specs.Prelude.{◌≡◌, ◌*◌, length};
ghost use Rattle.spline.specs.Kernel.{weight_in};
ghost use Rattle.particles.specs.Set.{record_count, particles_in};
ghost use Rattle.unpacked.specs.Unpacked.{per_particle};
ghost use Rattle.scatter_particle.specs.Added.{Added};
ghost use Rattle.transfer.specs.Internal.{PartReady, MoveReady, PartRoom, MovedFrom};

use refusal::Refusal;

// Adds the particles of some records of a set, which are unpacked into an array of as many numbers. Crate scatter calls it.
pub fn scatter_part(
    nx: usize,
    ny: usize,
    records: &[u8],
    array: &mut [i16],
    table: &[[u16; 3]; 64],
    d: u64,
    mass: &mut [u64],
    px: &mut [i64],
    py: &mut [i64],
)
    requires { PartReady nx ny records.now table.now d mass.old px.old py.old × (length array.old ≡ per_particle * record_count records.now) }
    ensures { Added (weight_in table.now) d nx ny (particles_in records.now) mass.old px.old py.old mass.new px.new py.new }
{
    unpacking::unpack_set(records, array);
    scatter_core::add_all(array, nx, ny, table, d, mass, px, py);
}

// Moves some records of a set, the first of which is record `first`, into an array of as many numbers, by way of another.
// Crate gather_parts calls it.
pub fn gather_part(
    nx: usize,
    ny: usize,
    first: usize,
    records: &[u8],
    from: &mut [i16],
    to: &mut [i16],
    table: &[[u16; 3]; 64],
    ux: &[i64],
    uy: &[i64],
) -> Result<(), Refusal>
    requires { MoveReady nx ny records.now ux.now uy.now × PartRoom first records.now from.old to.old }
    ensures { MovedFrom (weight_in table.now) first nx ny records.now ux.now uy.now to.new result }
{
    unpacking::unpack_set(records, from);
    gather_core::gather_from(first, from, nx, ny, table, ux, uy, to)
}
