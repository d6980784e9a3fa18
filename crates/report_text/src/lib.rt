// The text that the program prints, put into a buffer as a whole.
#![tactic(auto)]

ghost use Rattle.std.specs.Prelude.{◌≡◌, true, length};
ghost use Rattle.refusal.specs.Refused.{told};
ghost use Rattle.particles.specs.Set.{valid_length, record_count};
ghost use Rattle.text.specs.Internal.{Room, Put};
ghost use Rattle.report.specs.Internal.{lines_up_to, RoomForReport};
ghost use Rattle.report.specs.Report.{run_text, text_of, report_answer, filled};

use particle::RECORD_LENGTH;
use refusal::Refusal;
use report::{Outcome, REPORT_LENGTH};
use text::Text;
use totals::Totals;

// The lines of all records. `put_run` calls it.
fn put_records(text: &mut Text, records: &[u8])
    requires { Room text.old (lines_up_to records.now (record_count records.now)) }
    ensures { Put text.old (lines_up_to records.now (record_count records.now)) text.new }
{
    for record in records.chunks_exact(RECORD_LENGTH) {
        report_lines::put_particle(text, record_reader::unpack(record));
    }
}

// The report of a run. `put_outcome` calls it with a buffer that every report fits.
fn put_run(
    text: &mut Text,
    completed: usize,
    refusal: u8,
    place: usize,
    totals: Totals,
    records: &[u8],
)
    requires { (valid_length (length records.now) ≡ true) × RoomForReport text.old }
    ensures { Put text.old (run_text completed refusal place totals records.now) text.new }
{
    report_lines::put_done(text, completed, refusal.into(), place);
    report_lines::put_totals(text, totals);
    put_records(text, records);
}

// The whole text. `report` calls it with a buffer that every report fits.
fn put_outcome(outcome: Outcome, records: &[u8], text: &mut Text)
    requires { (valid_length (length records.now) ≡ true) × RoomForReport text.old }
    ensures { Put text.old (text_of outcome records.now) text.new }
{
    match outcome {
        Outcome::Refused(refusal) => {
            report_lines::put_refused(text, refusal.number().into(), refusal.place());
        }
        Outcome::Done(completed, totals) => put_run(text, completed, 0, 0, totals, records),
        Outcome::Stopped(completed, refusal, totals) => {
            let number = refusal.number();
            let place = refusal.place();
            put_run(text, completed, number, place, totals, records);
        }
    }
}

// The program's text for an outcome, at the beginning of a buffer, and its length. Of a refused file the records are not
// printed.
pub fn report(outcome: Outcome, records: &[u8], out: &mut [u8]) -> Result<usize, Refusal>
    ensures answer { told result ≡ report_answer outcome records.now out.old }
    ensures buffer { out.new ≡ filled outcome records.now out.old }
{
    if !particles::length_is_valid(records.len()) {
        return Err(Refusal::Length);
    }
    if out.len() < REPORT_LENGTH {
        return Err(Refusal::Length);
    }
    let mut text = Text::new(out);
    put_outcome(outcome, records, &mut text);
    Ok(text.length())
}
