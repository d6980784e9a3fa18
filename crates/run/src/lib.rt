// A step and a run of a particle set.
#![tactic(auto)]

ghost use Rattle.std.specs.Prelude.{◌*◌, ◌^◌, ◌≤◌, ◌<◌};
ghost use Rattle.refusal.specs.Refused.{told};
ghost use Rattle.apic.specs.Step.{grids_of};
ghost use Rattle.particles.specs.Set.{record_count};
ghost use Rattle.unpacked.specs.Unpacked.{per_particle};
ghost use Rattle.simulation.specs.Step.{Sees, step_after};
ghost use Rattle.simulation.specs.Run.{told_ran, run_after};
ghost use Rattle.simulation.specs.Internal.{RunReady, Runs};

use entry::Buffers;
use limits::Caller;
use packing::SET_NUMBERS;
use refusal::Refusal;
use settings::Settings;
use simulation::Stop;
use unpacked::NUMBERS;

// A small set has at most so many particles, and a middle one.
const SMALL: usize = 64;

const MIDDLE: usize = 512;

const SMALL_NUMBERS: usize = SMALL * NUMBERS;

const MIDDLE_NUMBERS: usize = MIDDLE * NUMBERS;

// Runs an accepted set with arrays of N numbers. `run` calls it with a small set, and `run_apart` with another.
fn run_sized<const N: usize>(
    settings: Settings,
    steps: usize,
    records: &mut [u8],
    mass: &mut [u64],
    px: &mut [i64],
    py: &mut [i64],
) -> Result<usize, Stop>
    requires fits { N < 2 ^ 62 }
    requires room { RunReady settings records.old mass.old px.old py.old × (per_particle * record_count records.old ≤ N) }
    ensures { Runs settings steps records.old mass.old px.old py.old result records.new mass.new px.new py.new }
{
    let mut a = [0i16; N];
    let mut b = [0i16; N];
    run_set::run_set(settings, steps, records, mass, px, py, &mut a, &mut b)
}

// The same, whose arrays the attribute keeps out of `run`, which would need their stack for every call. `run` calls it.
#[inline(never)]
fn run_apart<const N: usize>(
    settings: Settings,
    steps: usize,
    records: &mut [u8],
    mass: &mut [u64],
    px: &mut [i64],
    py: &mut [i64],
) -> Result<usize, Stop>
    requires fits { N < 2 ^ 62 }
    requires room { RunReady settings records.old mass.old px.old py.old × (per_particle * record_count records.old ≤ N) }
    ensures { Runs settings steps records.old mass.old px.old py.old result records.new mass.new px.new py.new }
{
    run_sized::<N>(settings, steps, records, mass, px, py)
}

// As many steps as wanted, or until one is refused: the records then hold the last completed step, and the grids the masses
// and updated velocities of the last step tried. A run refused at entry, and a run of no step, changes nothing.
pub fn run(
    caller: Caller,
    settings: Settings,
    steps: usize,
    records: &mut [u8],
    mass: &mut [u64],
    px: &mut [i64],
    py: &mut [i64],
) -> Result<usize, Stop>
    ensures { Sees (run_after caller settings steps records.old (grids_of mass.old px.old py.old)) (told_ran result) records.new mass.new px.new py.new }
{
    let buffers = Buffers::Three(mass.len(), px.len(), py.len());
    let count = entry::check(caller, settings, buffers, steps, records)?;
    // An array is cleared at each call, so a set takes the smallest that has room.
    if count <= SMALL {
        run_sized::<SMALL_NUMBERS>(settings, steps, records, mass, px, py)
    } else if count <= MIDDLE {
        run_apart::<MIDDLE_NUMBERS>(settings, steps, records, mass, px, py)
    } else {
        run_apart::<SET_NUMBERS>(settings, steps, records, mass, px, py)
    }
}

// One step, which is a run of one: on success the records hold the moved particles; refused, they are as they were.
pub fn step(
    caller: Caller,
    settings: Settings,
    records: &mut [u8],
    mass: &mut [u64],
    px: &mut [i64],
    py: &mut [i64],
) -> Result<(), Refusal>
    ensures { Sees (step_after caller settings records.old (grids_of mass.old px.old py.old)) (told result) records.new mass.new px.new py.new }
{
    run(caller, settings, 1, records, mass, px, py).map_err(|stop| stop.refusal)?;
    Ok(())
}
