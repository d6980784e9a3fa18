// Particle-to-grid transfer of a set of records.
#![tactic(auto)]

ghost use Rattle.std.specs.Prelude.{◌≡◌, ◌*◌, length};
ghost use Rattle.refusal.specs.Refused.{gives, and_then, told};
ghost use Rattle.spline.specs.Spline.{axis_weight, D};
ghost use Rattle.spline.specs.Kernel.{weight_in};
ghost use Rattle.particles.specs.Set.{particles_in};
ghost use Rattle.scatter_core.specs.Scatter.{ScatteredGrids};
ghost use Rattle.scatter_particle.specs.Added.{Added};
ghost use Rattle.transfer.specs.Transfer.{scatter_answer, ScatterIs};
ghost use Rattle.transfer.specs.Internal.{ScatterSet, PartsReady};

use entry::Buffers;
use limits::Caller;
use particle::RECORD_LENGTH;
use refusal::Refusal;
use transfer::{PART_LENGTH, PART_NUMBERS};
use unpacked::NUMBERS;

// Adds a set to cleared grids, part by part, through an array with room for the numbers of a part. `scatter_set` calls it.
fn scatter_parts(
    nx: usize,
    ny: usize,
    records: &[u8],
    array: &mut [i16],
    table: &[[u16; 3]; 64],
    d: u64,
    mass: &mut [u64],
    px: &mut [i64],
    py: &mut [i64],
)
    requires { PartsReady nx ny records.now array.old table.now d mass.old px.old py.old }
    ensures { Added (weight_in table.now) d nx ny (particles_in records.now) mass.old px.old py.old mass.new px.new py.new }
{
    for part in records.chunks(PART_LENGTH) {
        let size = part.len() / RECORD_LENGTH * NUMBERS;
        transfer_part::scatter_part(nx, ny, part, &mut array[..size], table, d, mass, px, py);
    }
}

// Clears the grids and adds an accepted set. `scatter` and crate adding_scatter call it.
pub fn scatter_set(
    nx: usize,
    ny: usize,
    records: &[u8],
    mass: &mut [u64],
    px: &mut [i64],
    py: &mut [i64],
)
    requires { ScatterSet nx ny records.now mass.old px.old py.old }
    ensures { ScatteredGrids axis_weight D nx ny (particles_in records.now) mass.new px.new py.new }
{
    let table = spline::weight_table();
    let mut array = [0i16; PART_NUMBERS];
    mass.fill(0);
    px.fill(0);
    py.fill(0);
    scatter_parts(nx, ny, records, &mut array, &table, spline::D, mass, px, py);
}

// What both scatters check first: sizes, records, and grid buffers of these lengths. `scatter` and crate adding_scatter call it.
pub fn check_scatter(
    caller: Caller,
    nx: usize,
    ny: usize,
    records: &[u8],
    mass: usize,
    px: usize,
    py: usize,
) -> Result<usize, Refusal>
    ensures { told result ≡ and_then (scatter_answer caller nx ny records.now mass px py) (λ ps. gives (length ps)) }
{
    entry::check(
        caller,
        settings::still(nx, ny),
        Buffers::Three(mass, px, py),
        0,
        records,
    )
}

// Particle-to-grid transfer: the grids then hold the masses and momenta of the set, whatever they held.
// A refused call leaves them as they were.
pub fn scatter(
    caller: Caller,
    nx: usize,
    ny: usize,
    records: &[u8],
    mass: &mut [u64],
    px: &mut [i64],
    py: &mut [i64],
) -> Result<(), Refusal>
    ensures { ScatterIs caller nx ny records.now mass.old px.old py.old (told result) mass.new px.new py.new }
{
    check_scatter(caller, nx, ny, records, mass.len(), px.len(), py.len())?;
    scatter_set(nx, ny, records, mass, px, py);
    Ok(())
}
