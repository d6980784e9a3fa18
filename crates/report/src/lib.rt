// A report: what the program has to tell. What of it is put into a buffer stands in specs/, what follows from it in proofs/.
#![tactic(auto)]

use limits::MOST_RECORDS;
use refusal::Refusal;
use totals::Totals;

// The length of a buffer that every report fits: room for the first two lines, and for each record's.
pub const REPORT_LENGTH: usize = HEAD_LENGTH + LINE_LENGTH * MOST_RECORDS;

const HEAD_LENGTH: usize = 224;

const LINE_LENGTH: usize = 57;

// What the program has to tell.
#[derive(Drop)]
pub enum Outcome {
    // the file was refused
    Refused(Refusal),
    // all steps were completed: their number, and the totals afterwards
    Done(usize, Totals),
    // a refusal stopped the run: the number of completed steps, the refusal, and the totals afterwards
    Stopped(usize, Refusal, Totals),
}
