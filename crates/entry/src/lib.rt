// The checks that an operation begins with, in the order of documents 01 and 02, by who calls it; and Check a set.
#![tactic(auto)]

pub mod checks;

ghost use Rattle.std.specs.Prelude.{◌≡◌, length};
ghost use Rattle.refusal.specs.Refused.{gives, told, and_then, done};
ghost use Rattle.particles.specs.Set.{check_answer};
ghost use Rattle.entry.specs.Entry.{checked_forces, begin_answer, entry_answer};

use limits::{Caller, MOST_DRAG, MOST_STEPS};
use particle::RECORD_LENGTH;
use refusal::Refusal;
use settings::Settings;

// The lengths of the grid buffers that a call is lent.
#[derive(Drop)]
pub enum Buffers {
    None,
    Two(usize, usize),
    Three(usize, usize, usize),
}

// Gravity, edge and drag.
fn check_forces(settings: Settings) -> Result<(), Refusal>
    ensures { told result ≡ checked_forces settings done }
{
    if !checks::gravity_in_range(settings.gx, settings.gy) {
        return Err(Refusal::Gravity);
    }
    let edge = settings.edge;
    if !settings::edge_is_valid(edge) {
        return Err(Refusal::Edge);
    }
    if MOST_DRAG < settings.drag {
        return Err(Refusal::Drag);
    }
    Ok(())
}

// The checks before the set, whose records have so many bytes.
pub fn begin(
    caller: Caller,
    settings: Settings,
    buffers: Buffers,
    steps: usize,
    bytes: usize,
) -> Result<(), Refusal>
    ensures { told result ≡ begin_answer caller settings buffers steps bytes }
{
    let nx = settings.nx;
    let ny = settings.ny;
    if !particles::size_is_valid(limits::most_side(caller), nx, ny) {
        return Err(Refusal::GridSize);
    }
    if !particles::length_is_valid(bytes) {
        return Err(Refusal::Length);
    }
    if !checks::are_long(nx * ny, buffers) {
        return Err(Refusal::Length);
    }
    if limits::most_records(caller) < bytes / RECORD_LENGTH {
        return Err(Refusal::Count);
    }
    check_forces(settings)?;
    if MOST_STEPS < steps {
        return Err(Refusal::Steps);
    }
    Ok(())
}

// The same, and then the set: the number of its records.
pub fn check(
    caller: Caller,
    settings: Settings,
    buffers: Buffers,
    steps: usize,
    records: &[u8],
) -> Result<usize, Refusal>
    ensures { told result ≡ and_then (entry_answer caller settings buffers steps records.now) (λ ps. gives (length ps)) }
{
    begin(caller, settings, buffers, steps, records.len())?;
    particles::check(
        settings.nx,
        settings.ny,
        records,
        0,
        records.len() / RECORD_LENGTH,
    )
}

// Check a set: the number of its records.
pub fn check_set(caller: Caller, nx: usize, ny: usize, records: &[u8]) -> Result<usize, Refusal>
    ensures { told result ≡ check_answer caller nx ny records.now }
{
    check(caller, settings::still(nx, ny), Buffers::None, 0, records)
}
