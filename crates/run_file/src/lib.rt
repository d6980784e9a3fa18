// The program as a function: from the bytes of a file to the whole text that is printed.
#![tactic(auto)]

ghost use Rattle.std.specs.Prelude.{◌≡◌, true, ◌≤◌, length};
ghost use Rattle.refusal.specs.Refused.{number, place};
ghost use Rattle.apic.specs.Step.{grids_of};
ghost use Rattle.report.specs.Lines.{refused_line};
ghost use Rattle.report.specs.Report.{report_length};
ghost use Rattle.run_report.specs.Internal.{Begins};
ghost use Rattle.program.specs.Program.{printed, text_after, file_after, grids_after};
ghost use Rattle.program.specs.Internal.{AcceptedFile, Prints};

use bath_file::{HEADER_LENGTH, Header};
use limits::Caller;
use program::{MOST_NODES, Printed};
use refusal::Refusal;
use report::{Outcome, REPORT_LENGTH};

// The report of a refused file. `run_file` calls it.
fn report_refusal(refusal: Refusal, text: &mut [u8]) -> Printed
    requires { report_length ≤ length text.old }
    ensures { (result.refused ≡ true) × Begins (refused_line (number refusal) (place refusal)) text.old result.length text.new }
{
    let length = run_report::put(Outcome::Refused(refusal), &[], text);
    Printed {
        length,
        refused: true,
    }
}

// Runs a file that was accepted, and reports it. `run_file` calls it.
fn run_accepted(
    h: Header,
    file: &mut [u8],
    mass: &mut [u64],
    px: &mut [i64],
    py: &mut [i64],
    text: &mut [u8],
) -> Printed
    requires { AcceptedFile h file.old mass.old px.old py.old text.old }
    ensures { Prints file.old (grids_of mass.old px.old py.old) text.old
        result file.new (grids_of mass.new px.new py.new) text.new }
{
    let ran = file_run::run_records(h, &mut file[HEADER_LENGTH..], mass, px, py);
    let length = run_report::report_run(h, ran, &file[HEADER_LENGTH..], text);
    Printed {
        length,
        refused: false,
    }
}

// The program: runs the file that a slice holds, any bytes, and puts the whole text at the beginning of the text buffer.
// Afterwards the file holds its header and the records that the run left, and the first nodes of the grids what the run left
// there; a refused file and the grids are as they were. Whatever grids and text hold before, the answer, the text and the file
// come out the same.
pub fn run_file(
    file: &mut [u8],
    mass: &mut [u64; MOST_NODES],
    px: &mut [i64; MOST_NODES],
    py: &mut [i64; MOST_NODES],
    text: &mut [u8; REPORT_LENGTH],
) -> Printed
    ensures answer { result ≡ printed file.old }
    ensures text { text.new ≡ text_after file.old text.old }
    ensures file { file.new ≡ file_after file.old }
    ensures grids { grids_of mass.new px.new py.new
        ≡ grids_after file.old (grids_of mass.old px.old py.old) }
{
    match file_reader::read_file(Caller::Bench, file) {
        Ok(h) => run_accepted(h, file, mass, px, py, text),
        Err(refusal) => report_refusal(refusal, text),
    }
}
