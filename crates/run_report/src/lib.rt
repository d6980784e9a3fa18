// The report of a run, from the records that it left: their totals, and the text.
#![tactic(auto)]

ghost use Rattle.std.specs.Prelude.{◌≡◌, true, ◌≤◌, length};
ghost use Rattle.particles.specs.Set.{valid_length};
ghost use Rattle.simulation.specs.Run.{told_ran};
ghost use Rattle.report.specs.Report.{text_of, report_length};
ghost use Rattle.run_report.specs.RunReport.{report_of};
ghost use Rattle.run_report.specs.Internal.{Reportable, outcome_of, Begins};

use bath_file::Header;
use limits::Caller;
use report::Outcome;
use simulation::Stop;
use totals::Totals;

// What a run comes to, with the totals of the records that it left. `report_run` calls it.
fn outcome(ran: Result<usize, Stop>, totals: Totals) -> Outcome
    ensures { result ≡ outcome_of ran totals }
{
    match ran {
        Ok(steps) => Outcome::Done(steps, totals),
        Err(stop) => Outcome::Stopped(stop.completed, stop.refusal, totals),
    }
}

// Puts the text of an outcome at the beginning of a buffer that every report fits. `report_run` calls it, and so does whoever
// reports a refused file.
pub fn put(outcome: Outcome, records: &[u8], text: &mut [u8]) -> usize
    requires { (valid_length (length records.now) ≡ true) × (report_length ≤ length text.old) }
    ensures { Begins (text_of outcome records.now) text.old result text.new }
{
    report_text::report(outcome, records, text).unwrap()
}

// The report of a run, with the totals of the records that it left. The program calls it.
pub fn report_run(h: Header, ran: Result<usize, Stop>, records: &[u8], text: &mut [u8]) -> usize
    requires { Reportable h records.now text.old }
    ensures { Begins (report_of (told_ran ran) records.now) text.old result text.new }
{
    let totals = totals_set::set_totals(Caller::Bench, h.nx, h.ny, records).unwrap();
    put(outcome(ran, totals), records, text)
}
