// The steps of a run, back and forth between two arrays of unpacked particles.
#![tactic(auto)]

ghost use Rattle.spline.specs.Kernel.{weight_in};
ghost use Rattle.apic.specs.Step.{grids_of};
ghost use Rattle.simulation.specs.Internal.{StepReady, Turns, Repeats, current, other};

use refusal::Refusal;
use settings::Settings;
use simulation::Stop;

// The step after `steps` completed ones, from the array that holds the particles into the other. The arrays go by the parity of
// `steps`, and are not exchanged by `swap`, since the caller too finds the particles by it. `repeat` calls it.
fn turn(
    settings: Settings,
    steps: usize,
    table: &[[u16; 3]; 64],
    d: u64,
    mass: &mut [u64],
    px: &mut [i64],
    py: &mut [i64],
    a: &mut [i16],
    b: &mut [i16],
) -> Result<(), Refusal>
    requires { StepReady settings (current steps a.old b.old) table.now d mass.old px.old py.old (other steps a.old b.old) }
    ensures { Turns (weight_in table.now) d settings steps a.old b.old result mass.new px.new py.new a.new b.new }
{
    if steps % 2 == 0 {
        step_core::step_particles(settings, a, table, d, mass, px, py, b)
    } else {
        step_core::step_particles(settings, b, table, d, mass, px, py, a)
    }
}

// Steps from the particles in `a`, as many as wanted or until one is refused. Crate run_set calls it.
pub fn repeat(
    settings: Settings,
    steps: usize,
    table: &[[u16; 3]; 64],
    d: u64,
    mass: &mut [u64],
    px: &mut [i64],
    py: &mut [i64],
    a: &mut [i16],
    b: &mut [i16],
) -> Result<usize, Stop>
    requires { StepReady settings a.old table.now d mass.old px.old py.old b.old }
    ensures { Repeats (weight_in table.now) d settings steps a.old (grids_of mass.old px.old py.old) result mass.new px.new py.new a.new b.new }
{
    for completed in 0..steps {
        if let Err(refusal) = turn(settings, completed, table, d, mass, px, py, a, b) {
            return Err(Stop { completed, refusal });
        }
    }
    Ok(steps)
}
