// The run that a file's header asks for, on the first nodes of grids that have room for any run.
#![tactic(auto)]

ghost use Rattle.std.specs.Prelude.{◌≡◌, ◌*◌, ◌≤◌};
ghost use Rattle.apic.specs.Limits.{SizeLimits};
ghost use Rattle.apic.specs.Step.{grids_of};
ghost use Rattle.simulation.specs.Step.{Sees};
ghost use Rattle.simulation.specs.Run.{told_ran};
ghost use Rattle.file_run.specs.FileRun.{settings_for, most_nodes, RunRoom, run_first};

use bath_file::Header;
use limits::{Caller, MOST_SIDE};
use settings::Settings;
use simulation::Stop;

// The nodes of the largest grid.
pub const MOST_NODES: usize = MOST_SIDE * MOST_SIDE;

// The settings of a file's run.
fn settings_of(h: Header) -> Settings
    ensures { result ≡ settings_for h }
{
    let gx = i64::from(h.gx);
    let gy = i64::from(h.gy);
    settings::of_numbers(h.nx, h.ny, gx, gy, h.kind, h.width, h.drag)
}

// The number of nodes of a grid: a product by itself, whose contract has the bound. `run_records` calls it with sizes in range.
fn nodes(nx: usize, ny: usize) -> usize
    requires { SizeLimits nx ny }
    ensures { (result ≡ nx * ny) × (result ≤ most_nodes) }
{
    nx * ny
}

// Runs the records of a file for the bench, on the first nodes of the grids. The program calls it.
pub fn run_records(
    h: Header,
    records: &mut [u8],
    mass: &mut [u64],
    px: &mut [i64],
    py: &mut [i64],
) -> Result<usize, Stop>
    requires { SizeLimits h.nx h.ny × RunRoom mass.old px.old py.old }
    ensures { Sees (run_first h records.old (grids_of mass.old px.old py.old))
        (told_ran result) records.new mass.new px.new py.new }
{
    let size = nodes(h.nx, h.ny);
    run::run(
        Caller::Bench,
        settings_of(h),
        h.steps,
        records,
        &mut mass[..size],
        &mut px[..size],
        &mut py[..size],
    )
}
