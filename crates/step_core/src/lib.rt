// A step on unpacked particles.
#![tactic(auto)]

ghost use Rattle.spline.specs.Kernel.{weight_in};
ghost use Rattle.simulation.specs.Internal.{StepReady, Steps};

use refusal::Refusal;
use settings::Settings;

// The step: scatter, update, gather. Crate run_core calls it.
pub fn step_particles(
    settings: Settings,
    from: &[i16],
    table: &[[u16; 3]; 64],
    d: u64,
    mass: &mut [u64],
    px: &mut [i64],
    py: &mut [i64],
    to: &mut [i16],
) -> Result<(), Refusal>
    requires { StepReady settings from.now table.now d mass.old px.old py.old to.old }
    ensures { Steps (weight_in table.now) d settings from.now result mass.new px.new py.new to.new }
{
    let nx = settings.nx;
    let ny = settings.ny;
    scatter_core::scatter_all(from, nx, ny, table, d, mass, px, py);
    update_grid::update_all(settings, d, mass, px, py);
    gather_core::gather_from(0, from, nx, ny, table, px, py, to)
}
