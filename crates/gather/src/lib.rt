// Grid-to-particle transfer of a set of records.
#![tactic(auto)]

ghost use Rattle.std.specs.Prelude.{◌≡◌, ◌*◌, ◌≤◌, length};
ghost use Rattle.refusal.specs.Refused.{told};
ghost use Rattle.limits.specs.Limits.{most_records};
ghost use Rattle.spline.specs.Spline.{axis_weight};
ghost use Rattle.particles.specs.Set.{record_count, particles_in};
ghost use Rattle.unpacked.specs.Unpacked.{per_particle};
ghost use Rattle.transfer.specs.Transfer.{move_answer, Moves, GatherIs};
ghost use Rattle.transfer.specs.Internal.{GatherSet, MovedFrom};

use limits::Caller;
use packing::SET_NUMBERS;
use particle::RECORD_LENGTH;
use refusal::Refusal;
use transfer::{PART_LENGTH, PART_NUMBERS};
use unpacked::NUMBERS;

// Moves an accepted set into an array of as many numbers. `gather_scratch` calls it.
fn gather_into(
    nx: usize,
    ny: usize,
    records: &[u8],
    to: &mut [i16],
    ux: &[i64],
    uy: &[i64],
) -> Result<(), Refusal>
    requires { GatherSet nx ny records.now ux.now uy.now × (length to.old ≡ per_particle * record_count records.now) }
    ensures { MovedFrom axis_weight 0 nx ny records.now ux.now uy.now to.new result }
{
    let table = spline::weight_table();
    let mut from = [0i16; PART_NUMBERS];
    gather_parts::gather_parts(nx, ny, records, &mut from, to, &table, ux, uy)
}

// Gathers an accepted set. The records are packed once every particle has passed, from an array with room for their numbers.
// `gather_sized` calls it.
fn gather_scratch(
    nx: usize,
    ny: usize,
    records: &mut [u8],
    to: &mut [i16],
    ux: &[i64],
    uy: &[i64],
) -> Result<(), Refusal>
    requires { GatherSet nx ny records.old ux.now uy.now × (per_particle * record_count records.old ≤ length to.old) }
    ensures { Moves (move_answer nx ny ux.now uy.now (particles_in records.old)) records.old (told result) records.new }
{
    let size = NUMBERS * (records.len() / RECORD_LENGTH);
    gather_into(nx, ny, records, &mut to[..size], ux, uy)?;
    packing::pack_set(&to[..size], records);
    Ok(())
}

// The same with an array of its own, of N numbers. `gather_set` calls it. Its array stays off the stack of a call that is
// refused: so it is no part of `gather`.
#[inline(never)]
fn gather_sized<const N: usize>(
    nx: usize,
    ny: usize,
    records: &mut [u8],
    ux: &[i64],
    uy: &[i64],
) -> Result<(), Refusal>
    requires { GatherSet nx ny records.old ux.now uy.now × (per_particle * record_count records.old ≤ N) × (N ≤ per_particle * most_records) }
    ensures { Moves (move_answer nx ny ux.now uy.now (particles_in records.old)) records.old (told result) records.new }
{
    let mut to = [0i16; N];
    gather_scratch(nx, ny, records, &mut to, ux, uy)
}

// Gathers an accepted set: one of at most a part has a small array, which is sooner cleared. `gather` calls it.
fn gather_set(
    nx: usize,
    ny: usize,
    records: &mut [u8],
    ux: &[i64],
    uy: &[i64],
) -> Result<(), Refusal>
    requires { GatherSet nx ny records.old ux.now uy.now }
    ensures { Moves (move_answer nx ny ux.now uy.now (particles_in records.old)) records.old (told result) records.new }
{
    if records.len() <= PART_LENGTH {
        return gather_sized::<PART_NUMBERS>(nx, ny, records, ux, uy);
    }
    gather_sized::<SET_NUMBERS>(nx, ny, records, ux, uy)
}

// Grid-to-particle transfer: the records then hold the moved particles. A refused call leaves every record as it was.
pub fn gather(
    caller: Caller,
    nx: usize,
    ny: usize,
    records: &mut [u8],
    ux: &[i64],
    uy: &[i64],
) -> Result<(), Refusal>
    ensures { GatherIs caller nx ny records.old ux.now uy.now (told result) records.new }
{
    gather_entry::check_gather(caller, nx, ny, records, ux, uy)?;
    gather_set(nx, ny, records, ux, uy)
}
