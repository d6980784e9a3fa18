// The lines of a report, each put behind a text with room for it.
#![tactic(auto)]

ghost use Rattle.text.specs.Internal.{Room, Put};
ghost use Rattle.report.specs.Lines.{refused_line, done_line, totals_line, particle_line};

use particle::Particle;
use text::Text;
use totals::Totals;

// The line of a refused file. Crate report_text calls it.
pub fn put_refused(text: &mut Text, refusal: usize, place: usize)
    requires { Room text.old (refused_line refusal place) }
    ensures { Put text.old (refused_line refusal place) text.new }
{
    phrases::put_filled(text, b"refused ? at ?\n", &[refusal, place]);
}

// The line of a run. Crate report_text calls it.
pub fn put_done(text: &mut Text, completed: usize, refusal: usize, place: usize)
    requires { Room text.old (done_line completed refusal place) }
    ensures { Put text.old (done_line completed refusal place) text.new }
{
    let numbers = [completed, refusal, place];
    phrases::put_filled(text, b"done ? refusal ? at ?\n", &numbers);
}

// The line of the totals: one more sum is one more name with its place. Crate report_text calls it.
pub fn put_totals(text: &mut Text, t: Totals)
    requires { Room text.old (totals_line t) }
    ensures { Put text.old (totals_line t) text.new }
{
    let sums = totals_share::sums_of(t);
    phrases::put_filled(text, b"mass ? px ? py ? spin ? motion ? marks ?\n", &sums);
}

// The line of a record. Crate report_text calls it.
pub fn put_particle(text: &mut Text, p: Particle)
    requires { Room text.old (particle_line p) }
    ensures { Put text.old (particle_line p) text.new }
{
    let numbers = record_reader::numbers_of(p);
    phrases::put_filled(text, b"? ? ? ? ? ? ? ? ? ? ?\n", &numbers);
}
