// The operations that have two callers, for programs in other languages: numbers and slices in, one number out, and values through
// the caller's arrays. What crate gondwize_c exports for the bench and for the lesson page calls these; a run's is in crate coding.
#![tactic(auto)]

ghost use Rattle.std.specs.Prelude.{◌≡◌};
ghost use Rattle.particles.specs.Set.{check_answer};
ghost use Rattle.totals.specs.Totals.{totals_answer, sums};
ghost use Rattle.transfer.specs.Transfer.{ScatterIs, GatherIs};
ghost use Rattle.adding.specs.Adding.{AddingIs};
ghost use Rattle.update.specs.Update.{UpdateIs};
ghost use Rattle.apic.specs.Step.{grids_of};
ghost use Rattle.settings.specs.Settings.{settings_with};
ghost use Rattle.simulation.specs.Step.{Sees, step_after};
ghost use Rattle.bath_file.specs.File.{file_answer};
ghost use Rattle.store.specs.Operations.{keep_answer, keep_leaves};
ghost use Rattle.wide.specs.Values.{settings};
ghost use Rattle.coding.specs.Coded.{coded, Gives, Tells};

use limits::Caller;
use wide::answer;

// Check a set: one value, the number of records.
pub fn check_set(caller: Caller, nx: usize, ny: usize, records: &[u8], count: &mut u64) -> u64
    ensures { Gives (check_answer caller nx ny records.now) (λ n. n) count.old result count.new }
{
    match entry::check_set(caller, nx, ny, records) {
        Err(refusal) => answer::code(refusal),
        Ok(found) => {
            *count = found as u64;
            0
        }
    }
}

// Totals: six values.
pub fn totals(
    caller: Caller,
    nx: usize,
    ny: usize,
    records: &[u8],
    values: &mut [i64; totals::SUMS],
) -> u64
    ensures { Gives (totals_answer caller nx ny records.now) sums values.old result values.new }
{
    match totals_set::set_totals(caller, nx, ny, records) {
        Err(refusal) => answer::code(refusal),
        Ok(t) => {
            *values = totals_share::sums_of(t);
            0
        }
    }
}

// Scatter.
pub fn scatter(
    caller: Caller,
    nx: usize,
    ny: usize,
    records: &[u8],
    mass: &mut [u64],
    px: &mut [i64],
    py: &mut [i64],
) -> u64
    ensures { Tells (λ told. ScatterIs caller nx ny records.now
        mass.old px.old py.old told
        mass.new px.new py.new) result }
{
    coding::coded(scatter::scatter(caller, nx, ny, records, mass, px, py))
}

// The adding scatter: in form as `scatter`, with another operation, whose promise is another.
pub fn adding_scatter(
    caller: Caller,
    nx: usize,
    ny: usize,
    records: &[u8],
    mass: &mut [u64],
    px: &mut [i64],
    py: &mut [i64],
) -> u64
    ensures { Tells (λ told. AddingIs caller nx ny records.now
        mass.old px.old py.old told
        mass.new px.new py.new) result }
{
    coding::coded(adding_scatter::adding_scatter(caller, nx, ny, records, mass, px, py))
}

// Update.
pub fn update(
    caller: Caller,
    nx: usize,
    ny: usize,
    gx: i64,
    gy: i64,
    kind: usize,
    width: usize,
    drag: usize,
    mass: &[u64],
    px: &mut [i64],
    py: &mut [i64],
) -> u64
    ensures { Tells (λ told. UpdateIs caller (settings_with nx ny gx gy kind width drag)
        mass.now px.old py.old told
        px.new py.new) result }
{
    let settings = settings::of_numbers(nx, ny, gx, gy, kind, width, drag);
    coding::coded(update_grid::update(caller, settings, mass, px, py))
}

// Gather.
pub fn gather(
    caller: Caller,
    nx: usize,
    ny: usize,
    records: &mut [u8],
    ux: &[i64],
    uy: &[i64],
) -> u64
    ensures { Tells (λ told. GatherIs caller nx ny
        records.old ux.now uy.now told
        records.new) result }
{
    coding::coded(gather::gather(caller, nx, ny, records, ux, uy))
}

// Step.
pub fn step(
    caller: Caller,
    nx: usize,
    ny: usize,
    gx: i64,
    gy: i64,
    kind: usize,
    width: usize,
    drag: usize,
    records: &mut [u8],
    mass: &mut [u64],
    px: &mut [i64],
    py: &mut [i64],
) -> u64
    ensures { Tells (λ told. Sees (step_after caller (settings_with nx ny gx gy kind width drag)
        records.old (grids_of mass.old px.old py.old)) told
        records.new mass.new px.new py.new) result }
{
    let settings = settings::of_numbers(nx, ny, gx, gy, kind, width, drag);
    coding::coded(run::step(caller, settings, records, mass, px, py))
}

// Read a file: nine values.
pub fn read_file(caller: Caller, bytes: &[u8], values: &mut [i64; wide::SETTINGS]) -> u64
    ensures { Gives (file_answer caller bytes.now) settings values.old result values.new }
{
    match file_reader::read_file(caller, bytes) {
        Err(refusal) => answer::code(refusal),
        Ok(h) => {
            *values = wide::of_header(h);
            0
        }
    }
}

// Keep.
pub fn keep(caller: Caller, store: &mut [u8], name: &[u8], file: &[u8]) -> u64
    ensures answer { result ≡ coded (keep_answer caller store.old name.now file.now) }
    ensures store { store.new ≡ keep_leaves caller store.old name.now file.now }
{
    coding::coded(store_calls::keep(caller, store, name, file))
}
