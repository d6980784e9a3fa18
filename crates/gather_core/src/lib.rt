// The grid-to-particle transfer on unpacked particles: every particle of a set gathered, moved, checked and stored.
#![tactic(auto)]

ghost use Rattle.std.specs.Prelude.{◌+◌, ◌*◌, ◌/◌, ◌<◌, ◌≤◌, length};
ghost use Rattle.limits.specs.Limits.{most_records};
ghost use Rattle.spline.specs.Kernel.{weight_in};
ghost use Rattle.unpacked.specs.Unpacked.{per_particle};
ghost use Rattle.gathering.specs.Gather.{Gatherable, Gathers};
ghost use Rattle.gathering.specs.Parts.{MovesAt};

use refusal::Refusal;
use unpacked::NUMBERS;

// Moves particle k of `from`, the first of which is record `first`, into `to`, unless it is refused. `gather_from` calls it.
fn move_one(
    first: usize,
    from: &[i16],
    k: usize,
    nx: usize,
    ny: usize,
    table: &[[u16; 3]; 64],
    ux: &[i64],
    uy: &[i64],
    to: &mut [i16],
) -> Result<(), Refusal>
    requires { Gatherable nx ny from.now ux.now uy.now to.old × (first ≤ most_records) × (k < length from.now / per_particle) }
    ensures { MovesAt (weight_in table.now) nx ny (first + k) k from.now ux.now uy.now to.old to.new result }
{
    let at = NUMBERS * k;
    let x = unpacked::natural_at(from, at + 1);
    let y = unpacked::natural_at(from, at + 2);
    let m = gather_point::gather_at(usize::from(x), usize::from(y), nx, table, ux, uy);
    gather_particle::settle(
        first + k,
        k,
        nx,
        ny,
        unpacked::number_at(from, at),
        i64::from(x),
        i64::from(y),
        m.x,
        m.y,
        to,
    )
}

// Moves the particles of `from`, the first of which is record `first`, into `to`, all of them or those before a refused one.
// The step and the gather call it.
pub fn gather_from(
    first: usize,
    from: &[i16],
    nx: usize,
    ny: usize,
    table: &[[u16; 3]; 64],
    ux: &[i64],
    uy: &[i64],
    to: &mut [i16],
) -> Result<(), Refusal>
    requires { Gatherable nx ny from.now ux.now uy.now to.old × (first ≤ most_records) }
    ensures { Gathers (weight_in table.now) first nx ny from.now ux.now uy.now to.old to.new result }
{
    let count = from.len() / NUMBERS;
    for k in 0..count {
        move_one(first, from, k, nx, ny, table, ux, uy, to)?;
    }
    Ok(())
}
