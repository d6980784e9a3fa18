// The operations of the lesson page, the second caller, for C, which has a name for each operation of each caller.
ghost use Rattle.std.specs.Prelude.{◌≡◌};
ghost use Rattle.limits.specs.declared.Caller.TheVariants.{Page};
ghost use Rattle.particles.specs.Set.{check_answer};
ghost use Rattle.totals.specs.Totals.{totals_answer, sums};
ghost use Rattle.transfer.specs.Transfer.{ScatterIs, GatherIs};
ghost use Rattle.adding.specs.Adding.{AddingIs};
ghost use Rattle.update.specs.Update.{UpdateIs};
ghost use Rattle.apic.specs.Step.{grids_of};
ghost use Rattle.settings.specs.Settings.{settings_with};
ghost use Rattle.simulation.specs.Step.{Sees, step_after};
ghost use Rattle.bath_file.specs.File.{file_answer};
ghost use Rattle.store.specs.Operations.{keep_answer, keep_leaves};
ghost use Rattle.wide.specs.Values.{settings};
ghost use Rattle.coding.specs.Coded.{coded, Gives, Tells};
ghost use Rattle.coding.specs.Runs.{RunTells};

use limits::Caller;

// Check a set.
#[unsafe(no_mangle)]
pub extern "C" fn gondwize_page_check_set(
    nx: usize,
    ny: usize,
    records: &[u8],
    count: &mut u64,
) -> u64
    ensures { Gives (check_answer Page nx ny records.now) (λ n. n) count.old result count.new }
{
    by_caller::check_set(Caller::Page, nx, ny, records, count)
}

// Totals.
#[unsafe(no_mangle)]
pub extern "C" fn gondwize_page_totals(
    nx: usize,
    ny: usize,
    records: &[u8],
    values: &mut [i64; totals::SUMS],
) -> u64
    ensures { Gives (totals_answer Page nx ny records.now) sums values.old result values.new }
{
    by_caller::totals(Caller::Page, nx, ny, records, values)
}

// Scatter.
#[unsafe(no_mangle)]
pub extern "C" fn gondwize_page_scatter(
    nx: usize,
    ny: usize,
    records: &[u8],
    mass: &mut [u64],
    px: &mut [i64],
    py: &mut [i64],
) -> u64
    ensures { Tells (λ told. ScatterIs Page nx ny records.now
        mass.old px.old py.old told
        mass.new px.new py.new) result }
{
    by_caller::scatter(Caller::Page, nx, ny, records, mass, px, py)
}

// The adding scatter.
#[unsafe(no_mangle)]
pub extern "C" fn gondwize_page_adding_scatter(
    nx: usize,
    ny: usize,
    records: &[u8],
    mass: &mut [u64],
    px: &mut [i64],
    py: &mut [i64],
) -> u64
    ensures { Tells (λ told. AddingIs Page nx ny records.now
        mass.old px.old py.old told
        mass.new px.new py.new) result }
{
    by_caller::adding_scatter(Caller::Page, nx, ny, records, mass, px, py)
}

// Update.
#[unsafe(no_mangle)]
pub extern "C" fn gondwize_page_update(
    nx: usize,
    ny: usize,
    gx: i64,
    gy: i64,
    kind: usize,
    width: usize,
    drag: usize,
    mass: &[u64],
    px: &mut [i64],
    py: &mut [i64],
) -> u64
    ensures { Tells (λ told. UpdateIs Page (settings_with nx ny gx gy kind width drag)
        mass.now px.old py.old told
        px.new py.new) result }
{
    by_caller::update(
        Caller::Page,
        nx,
        ny,
        gx,
        gy,
        kind,
        width,
        drag,
        mass,
        px,
        py,
    )
}

// Gather.
#[unsafe(no_mangle)]
pub extern "C" fn gondwize_page_gather(
    nx: usize,
    ny: usize,
    records: &mut [u8],
    ux: &[i64],
    uy: &[i64],
) -> u64
    ensures { Tells (λ told. GatherIs Page nx ny
        records.old ux.now uy.now told
        records.new) result }
{
    by_caller::gather(Caller::Page, nx, ny, records, ux, uy)
}

// Step.
#[unsafe(no_mangle)]
pub extern "C" fn gondwize_page_step(
    nx: usize,
    ny: usize,
    gx: i64,
    gy: i64,
    kind: usize,
    width: usize,
    drag: usize,
    records: &mut [u8],
    mass: &mut [u64],
    px: &mut [i64],
    py: &mut [i64],
) -> u64
    ensures { Tells (λ told. Sees (step_after Page (settings_with nx ny gx gy kind width drag)
        records.old (grids_of mass.old px.old py.old)) told
        records.new mass.new px.new py.new) result }
{
    by_caller::step(
        Caller::Page,
        nx,
        ny,
        gx,
        gy,
        kind,
        width,
        drag,
        records,
        mass,
        px,
        py,
    )
}

// Run.
#[unsafe(no_mangle)]
pub extern "C" fn gondwize_page_run(
    nx: usize,
    ny: usize,
    gx: i64,
    gy: i64,
    kind: usize,
    width: usize,
    drag: usize,
    steps: usize,
    records: &mut [u8],
    mass: &mut [u64],
    px: &mut [i64],
    py: &mut [i64],
    completed: &mut u64,
) -> u64
    ensures { RunTells Page (settings_with nx ny gx gy kind width drag) steps
        records.old (grids_of mass.old px.old py.old) result
        records.new mass.new px.new py.new completed.new }
{
    coding::run_told(
        Caller::Page,
        nx,
        ny,
        gx,
        gy,
        kind,
        width,
        drag,
        steps,
        records,
        mass,
        px,
        py,
        completed,
    )
}

// Read a file.
#[unsafe(no_mangle)]
pub extern "C" fn gondwize_page_read_file(bytes: &[u8], values: &mut [i64; wide::SETTINGS]) -> u64
    ensures { Gives (file_answer Page bytes.now) settings values.old result values.new }
{
    by_caller::read_file(Caller::Page, bytes, values)
}

// Keep.
#[unsafe(no_mangle)]
pub extern "C" fn gondwize_page_keep(store: &mut [u8], name: &[u8], file: &[u8]) -> u64
    ensures answer { result ≡ coded (keep_answer Page store.old name.now file.now) }
    ensures store { store.new ≡ keep_leaves Page store.old name.now file.now }
{
    by_caller::keep(Caller::Page, store, name, file)
}
