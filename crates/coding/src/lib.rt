// Answers as programs in other languages see them: a call without values as one number; and a run, with the completed steps through
// the caller's number.
#![tactic(auto)]

ghost use Rattle.std.specs.Prelude.{◌≡◌, ◌<◌, IfErr};
ghost use Rattle.refusal.specs.Refused.{place, told};
ghost use Rattle.coding.specs.Coded.{coded};
ghost use Rattle.apic.specs.Step.{grids_of};
ghost use Rattle.settings.specs.Settings.{settings_with};
ghost use Rattle.coding.specs.Runs.{RunTells};

use limits::Caller;
use refusal::Refusal;
use simulation::Stop;
use wide::answer;

// The number of a call that hands no value out. Every such function of crates by_caller and gondwize calls it.
pub fn coded(call: Result<(), Refusal>) -> u64
    requires { IfErr call (λ e. place e < 4294967296) }
    ensures { result ≡ coded (told call) }
{
    match call {
        Err(refusal) => answer::code(refusal),
        Ok(()) => 0,
    }
}

// The number of completed steps is told also where a refusal stopped the run. `gondwize_run` and `gondwize_page_run` call it.
pub fn run_told(
    caller: Caller,
    nx: usize,
    ny: usize,
    gx: i64,
    gy: i64,
    kind: usize,
    width: usize,
    drag: usize,
    steps: usize,
    records: &mut [u8],
    mass: &mut [u64],
    px: &mut [i64],
    py: &mut [i64],
    completed: &mut u64,
) -> u64
    ensures { RunTells caller (settings_with nx ny gx gy kind width drag) steps
        records.old (grids_of mass.old px.old py.old) result
        records.new mass.new px.new py.new completed.new }
{
    let settings = settings::of_numbers(nx, ny, gx, gy, kind, width, drag);
    match run::run(caller, settings, steps, records, mass, px, py) {
        Err(stop) => {
            *completed = stop.completed as u64;
            answer::code(stop.refusal)
        }
        Ok(count) => {
            *completed = count as u64;
            0
        }
    }
}
