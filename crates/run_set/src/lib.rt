// A run from records to records: unpacked once, stepped, packed once.
#![tactic(auto)]

ghost use Rattle.std.specs.Prelude.{◌≡◌, ◌*◌, ◌/◌, ◌≤◌, length};
ghost use Rattle.particle.specs.Layout.{record_length};
ghost use Rattle.particles.specs.Set.{record_count};
ghost use Rattle.unpacked.specs.Unpacked.{per_particle};
ghost use Rattle.packing.specs.Packing.{Packable};
ghost use Rattle.simulation.specs.Internal.{Settles, RunReady, Runs, current};

use particle::RECORD_LENGTH;
use settings::Settings;
use simulation::Stop;
use unpacked::NUMBERS;

// Packs the particles after `steps` completed steps. `run_set` calls it.
fn settle(steps: usize, a: &[i16], b: &[i16], records: &mut [u8])
    requires { Packable (current steps a.now b.now) × (length records.old ≡ record_length * (length (current steps a.now b.now) / per_particle)) }
    ensures { Settles steps (current steps a.now b.now) records.old records.new }
{
    if steps > 0 {
        let held = if steps % 2 == 0 { a } else { b };
        packing::pack_set(held, records);
    }
}

// Runs an accepted set with two arrays that have room for its numbers. Crate run calls it.
pub fn run_set(
    settings: Settings,
    steps: usize,
    records: &mut [u8],
    mass: &mut [u64],
    px: &mut [i64],
    py: &mut [i64],
    a: &mut [i16],
    b: &mut [i16],
) -> Result<usize, Stop>
    requires { RunReady settings records.old mass.old px.old py.old × (per_particle * record_count records.old ≤ length a.old) × (per_particle * record_count records.old ≤ length b.old) }
    ensures { Runs settings steps records.old mass.old px.old py.old result records.new mass.new px.new py.new }
{
    let size = NUMBERS * (records.len() / RECORD_LENGTH);
    let from = &mut a[..size];
    let to = &mut b[..size];
    let table = spline::weight_table();
    unpacking::unpack_set(records, from);
    let ran = run_core::repeat(settings, steps, &table, spline::D, mass, px, py, from, to);
    settle(ran.unwrap_or_else(|stop| stop.completed), from, to, records);
    ran
}
