// One particle on its way out of the gather: moved, checked, stored.
#![tactic(auto)]

ghost use Rattle.std.specs.Prelude.{◌≡◌, ◌+◌, ◌*◌, ◌+ℤ◌};
ghost use Rattle.arith.specs.Size.{Bound};
ghost use Rattle.gather_point.specs.Point.{most_gathered};
ghost use Rattle.limits.specs.Limits.{most_position};
ghost use Rattle.gathering.specs.Parts.{particle_stored, Storable, Settling, Settled};

use gather_point::AffineVelocity;
use refusal::Refusal;
use unpacked::NUMBERS;

// The numbers of a particle, from place `at` on. `settle` calls it.
fn store_particle(
    to: &mut [i16],
    at: usize,
    mass: i64,
    x: i64,
    y: i64,
    a: AffineVelocity,
    b: AffineVelocity,
)
    requires { Storable at mass x y a b to.old }
    ensures { to.new ≡ particle_stored to.old at mass x y a b }
{
    to[at] = mass as i16;
    to[at + 1] = x as i16;
    to[at + 2] = y as i16;
    to[at + 3] = a.v as i16;
    to[at + 4] = b.v as i16;
    to[at + 5] = a.bx as i16;
    to[at + 6] = a.by as i16;
    to[at + 7] = b.bx as i16;
    to[at + 8] = b.by as i16;
}

// Moves the record with this index from (x, y), and stores it at place k of `to` where it passes its checks. `move_one` calls it.
pub fn settle(
    index: usize,
    k: usize,
    nx: usize,
    ny: usize,
    mass: i64,
    x: i64,
    y: i64,
    a: AffineVelocity,
    b: AffineVelocity,
    to: &mut [i16],
) -> Result<(), Refusal>
    requires { Settling k nx ny mass x y a b to.old }
    ensures { Settled index k nx ny mass (x +ℤ a.v) (y +ℤ b.v) a b to.old to.new result }
{
    let new_x = x + a.v;
    let new_y = y + b.v;
    gather_checks::check(index, nx, ny, new_x, new_y, a, b)?;
    store_particle(to, NUMBERS * k, mass, new_x, new_y, a, b);
    Ok(())
}
