// Totals: the sums over a particle set whose records are checked on the way.
#![tactic(auto)]

ghost use Rattle.std.specs.Prelude.{◌≡◌, ◌+◌, ◌*◌, ◌≤◌, ◌<◌, length};
ghost use Rattle.refusal.specs.Refused.{told};
ghost use Rattle.limits.specs.Limits.{most_records};
ghost use Rattle.particle.specs.Layout.{record_length};
ghost use Rattle.particle.specs.Record.{Valid};
ghost use Rattle.apic.specs.Limits.{SizeLimits};
ghost use Rattle.totals.specs.Totals.{totals_answer};
ghost use Rattle.totals_set.specs.Walk.{Small, SmallNext, next_answer, next_record, walked};

use entry::Buffers;
use limits::Caller;
use particle::{Particle, RECORD_LENGTH};
use particles::Entry;
use refusal::Refusal;
use totals::Totals;

// How far a walk has come: how far the check has, and the totals so far.
#[derive(Drop)]
pub struct Progress {
    pub entry: Entry,
    pub totals: Totals,
}

// A particle's checks in its set, and its share added to the totals. `next_record` calls it with a particle that it has read.
fn next_particle(
    p: Particle,
    k: usize,
    nx: usize,
    ny: usize,
    progress: Progress,
) -> Result<Progress, Refusal>
    requires { Valid p × (p.marks < 256) × SizeLimits nx ny × (k < most_records) × Small k progress }
    ensures { (told result ≡ next_answer nx ny k progress p) × SmallNext (k + 1) result }
{
    let next = particles::check_particle(p, k, nx, ny, progress.entry)?;
    Ok(Progress {
        entry: next,
        totals: totals_share::plus_of(progress.totals, totals_share::share_of(p)),
    })
}

// One turn of the walk: the record reader is lent the part that starts at the record, and the particle that it read is checked and
// added: in form as `check_record` of crate particles, with a walk's own step. `walk` calls it.
fn next_record(
    nx: usize,
    ny: usize,
    bytes: &[u8],
    start: usize,
    k: usize,
    progress: Progress,
) -> Result<Progress, Refusal>
    requires { SizeLimits nx ny × (k < most_records) × Small k progress × (start + record_length * k + record_length ≤ length bytes.now) }
    ensures { (told result ≡ next_record nx ny start bytes.now k progress) × SmallNext (k + 1) result }
{
    let at = start + RECORD_LENGTH * k;
    let p = record_reader::read_indexed(&bytes[at..at + RECORD_LENGTH], k)?;
    next_particle(p, k, nx, ny, progress)
}

// The totals of `count` records from byte `start` on, each checked. `set_totals` calls it.
fn walk(nx: usize, ny: usize, bytes: &[u8], start: usize, count: usize) -> Result<Totals, Refusal>
    requires { SizeLimits nx ny × (count ≤ most_records) × (start + record_length * count ≤ length bytes.now) }
    ensures { told result ≡ walked nx ny start bytes.now count }
{
    let mut progress = Progress {
        entry: Entry { least: 0, mass: 0 },
        totals: Totals::default(),
    };
    for k in 0..count {
        progress = next_record(nx, ny, bytes, start, k, progress)?;
    }
    Ok(progress.totals)
}

// Totals of a set.
pub fn set_totals(caller: Caller, nx: usize, ny: usize, records: &[u8]) -> Result<Totals, Refusal>
    ensures { told result ≡ totals_answer caller nx ny records.now }
{
    entry::begin(
        caller,
        settings::still(nx, ny),
        Buffers::None,
        0,
        records.len(),
    )?;
    walk(nx, ny, records, 0, records.len() / RECORD_LENGTH)
}
