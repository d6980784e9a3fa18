// The operations for C, each under its own name and by the C calling convention, with the clauses of the function that it calls: of
// crate `gondwize`, or of `by_caller` or `coding` where there are two callers, the bench here and the lesson page in `page`.
// include/gondwize.h declares them.
#![tactic(auto)]

pub mod page;

ghost use Rattle.std.specs.Prelude.{◌≡◌};
ghost use Rattle.limits.specs.declared.Caller.TheVariants.{Bench};
ghost use Rattle.particle.specs.Record.{numbers, read_answer, write_answer, written};
ghost use Rattle.particles.specs.Set.{check_answer};
ghost use Rattle.totals.specs.Totals.{totals_answer, sums};
ghost use Rattle.spline.specs.Answers.{weights_answer};
ghost use Rattle.transfer.specs.Transfer.{ScatterIs, GatherIs};
ghost use Rattle.adding.specs.Adding.{AddingIs};
ghost use Rattle.update.specs.Update.{UpdateIs};
ghost use Rattle.apic.specs.Step.{grids_of};
ghost use Rattle.simulation.specs.Step.{Sees, step_after};
ghost use Rattle.bath_file.specs.File.{file_answer};
ghost use Rattle.bath_file.specs.File as file;
ghost use Rattle.store.specs.Operations.{keep_answer, keep_leaves, return_answer, return_leaves, forget_answer, forget_leaves, length_of};
ghost use Rattle.wide.specs.Values.{weight_values, settings, particle_with, header_with};
ghost use Rattle.coding.specs.Coded.{coded, Gives, Tells};
ghost use Rattle.settings.specs.Settings.{settings_with};
ghost use Rattle.coding.specs.Runs.{RunTells};

use limits::Caller;
use particle::NUMBERS;

// Read a record: eleven values.
#[unsafe(no_mangle)]
pub extern "C" fn gondwize_read_record(bytes: &[u8], values: &mut [i64; NUMBERS]) -> u64
    ensures { Gives (read_answer 0 bytes.now) numbers values.old result values.new }
{
    gondwize::gondwize_read_record(bytes, values)
}

// Write a record.
#[unsafe(no_mangle)]
pub extern "C" fn gondwize_write_record(
    identifier: u16,
    mass: u64,
    x: u64,
    y: u64,
    vx: i64,
    vy: i64,
    bxx: i64,
    bxy: i64,
    byx: i64,
    byy: i64,
    marks: u8,
    bytes: &mut [u8],
) -> u64
    ensures answer { result ≡ coded (write_answer (particle_with identifier mass x y vx vy bxx bxy byx byy marks) bytes.old) }
    ensures buffer { bytes.new ≡ written (particle_with identifier mass x y vx vy bxx bxy byx byy marks) bytes.old }
{
    gondwize::gondwize_write_record(
        identifier, mass, x, y, vx, vy, bxx, bxy, byx, byy, marks, bytes,
    )
}

// Check a set: one value, the number of records.
#[unsafe(no_mangle)]
pub extern "C" fn gondwize_check_set(nx: usize, ny: usize, records: &[u8], count: &mut u64) -> u64
    ensures { Gives (check_answer Bench nx ny records.now) (λ n. n) count.old result count.new }
{
    by_caller::check_set(Caller::Bench, nx, ny, records, count)
}

// Totals: six values.
#[unsafe(no_mangle)]
pub extern "C" fn gondwize_totals(
    nx: usize,
    ny: usize,
    records: &[u8],
    values: &mut [i64; totals::SUMS],
) -> u64
    ensures { Gives (totals_answer Bench nx ny records.now) sums values.old result values.new }
{
    by_caller::totals(Caller::Bench, nx, ny, records, values)
}

// Weights: three values.
#[unsafe(no_mangle)]
pub extern "C" fn gondwize_weights(q: i64, values: &mut [i64; 3]) -> u64
    ensures { Gives (weights_answer q) weight_values values.old result values.new }
{
    gondwize::gondwize_weights(q, values)
}

// Scatter.
#[unsafe(no_mangle)]
pub extern "C" fn gondwize_scatter(
    nx: usize,
    ny: usize,
    records: &[u8],
    mass: &mut [u64],
    px: &mut [i64],
    py: &mut [i64],
) -> u64
    ensures { Tells (λ told. ScatterIs Bench nx ny records.now
        mass.old px.old py.old told
        mass.new px.new py.new) result }
{
    by_caller::scatter(Caller::Bench, nx, ny, records, mass, px, py)
}

// The adding scatter.
#[unsafe(no_mangle)]
pub extern "C" fn gondwize_adding_scatter(
    nx: usize,
    ny: usize,
    records: &[u8],
    mass: &mut [u64],
    px: &mut [i64],
    py: &mut [i64],
) -> u64
    ensures { Tells (λ told. AddingIs Bench nx ny records.now
        mass.old px.old py.old told
        mass.new px.new py.new) result }
{
    by_caller::adding_scatter(Caller::Bench, nx, ny, records, mass, px, py)
}

// Update.
#[unsafe(no_mangle)]
pub extern "C" fn gondwize_update(
    nx: usize,
    ny: usize,
    gx: i64,
    gy: i64,
    kind: usize,
    width: usize,
    drag: usize,
    mass: &[u64],
    px: &mut [i64],
    py: &mut [i64],
) -> u64
    ensures { Tells (λ told. UpdateIs Bench (settings_with nx ny gx gy kind width drag)
        mass.now px.old py.old told
        px.new py.new) result }
{
    by_caller::update(
        Caller::Bench,
        nx,
        ny,
        gx,
        gy,
        kind,
        width,
        drag,
        mass,
        px,
        py,
    )
}

// Gather.
#[unsafe(no_mangle)]
pub extern "C" fn gondwize_gather(
    nx: usize,
    ny: usize,
    records: &mut [u8],
    ux: &[i64],
    uy: &[i64],
) -> u64
    ensures { Tells (λ told. GatherIs Bench nx ny
        records.old ux.now uy.now told
        records.new) result }
{
    by_caller::gather(Caller::Bench, nx, ny, records, ux, uy)
}

// Step.
#[unsafe(no_mangle)]
pub extern "C" fn gondwize_step(
    nx: usize,
    ny: usize,
    gx: i64,
    gy: i64,
    kind: usize,
    width: usize,
    drag: usize,
    records: &mut [u8],
    mass: &mut [u64],
    px: &mut [i64],
    py: &mut [i64],
) -> u64
    ensures { Tells (λ told. Sees (step_after Bench (settings_with nx ny gx gy kind width drag)
        records.old (grids_of mass.old px.old py.old)) told
        records.new mass.new px.new py.new) result }
{
    by_caller::step(
        Caller::Bench,
        nx,
        ny,
        gx,
        gy,
        kind,
        width,
        drag,
        records,
        mass,
        px,
        py,
    )
}

// Run: one value, the number of completed steps.
#[unsafe(no_mangle)]
pub extern "C" fn gondwize_run(
    nx: usize,
    ny: usize,
    gx: i64,
    gy: i64,
    kind: usize,
    width: usize,
    drag: usize,
    steps: usize,
    records: &mut [u8],
    mass: &mut [u64],
    px: &mut [i64],
    py: &mut [i64],
    completed: &mut u64,
) -> u64
    ensures { RunTells Bench (settings_with nx ny gx gy kind width drag) steps
        records.old (grids_of mass.old px.old py.old) result
        records.new mass.new px.new py.new completed.new }
{
    coding::run_told(
        Caller::Bench,
        nx,
        ny,
        gx,
        gy,
        kind,
        width,
        drag,
        steps,
        records,
        mass,
        px,
        py,
        completed,
    )
}

// Read a file: nine values.
#[unsafe(no_mangle)]
pub extern "C" fn gondwize_read_file(bytes: &[u8], values: &mut [i64; wide::SETTINGS]) -> u64
    ensures { Gives (file_answer Bench bytes.now) settings values.old result values.new }
{
    by_caller::read_file(Caller::Bench, bytes, values)
}

// Write a header.
#[unsafe(no_mangle)]
pub extern "C" fn gondwize_write_header(
    nx: usize,
    ny: usize,
    gx: i64,
    gy: i64,
    count: usize,
    steps: usize,
    kind: usize,
    width: usize,
    drag: usize,
    bytes: &mut [u8],
) -> u64
    ensures answer { result ≡ coded (file.write_answer (header_with nx ny gx gy count steps kind width drag) bytes.old) }
    ensures buffer { bytes.new ≡ file.written (header_with nx ny gx gy count steps kind width drag) bytes.old }
{
    gondwize::gondwize_write_header(nx, ny, gx, gy, count, steps, kind, width, drag, bytes)
}

// Keep.
#[unsafe(no_mangle)]
pub extern "C" fn gondwize_keep(store: &mut [u8], name: &[u8], file: &[u8]) -> u64
    ensures answer { result ≡ coded (keep_answer Bench store.old name.now file.now) }
    ensures store { store.new ≡ keep_leaves Bench store.old name.now file.now }
{
    by_caller::keep(Caller::Bench, store, name, file)
}

// Return: one value, the length of the file.
#[unsafe(no_mangle)]
pub extern "C" fn gondwize_return(
    store: &[u8],
    name: &[u8],
    buffer: &mut [u8],
    size: &mut u64,
) -> u64
    ensures answer { Gives (length_of (return_answer store.now name.now buffer.old)) (λ n. n) size.old result size.new }
    ensures buffer { buffer.new ≡ return_leaves store.now name.now buffer.old }
{
    gondwize::gondwize_return(store, name, buffer, size)
}

// Forget.
#[unsafe(no_mangle)]
pub extern "C" fn gondwize_forget(store: &mut [u8], name: &[u8]) -> u64
    ensures answer { result ≡ coded (forget_answer store.old name.now) }
    ensures store { store.new ≡ forget_leaves store.old name.now }
{
    gondwize::gondwize_forget(store, name)
}
