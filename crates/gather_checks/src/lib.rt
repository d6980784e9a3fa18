// The checks of a moved record, on its new numbers: velocity, B and place.
#![tactic(auto)]

ghost use Rattle.std.specs.Prelude.{◌≡◌, ◌||◌, ◌-◌, ◌*◌, ◌<◌, ◌≤◌, pos};
ghost use Rattle.refusal.specs.Refused.{gives, told};
ghost use Rattle.limits.specs.Limits.{least_side, most_side};
ghost use Rattle.apic.specs.Limits.{SizeLimits};
ghost use Rattle.gathering.specs.Gather.{beyond, off_axis, first_of};
ghost use Rattle.gathering.specs.Parts.{check_of};

use gather_point::AffineVelocity;
use limits::{MOST_AFFINE, MOST_VELOCITY};
use refusal::Refusal;

// A number beyond ±most. `either_beyond` calls it.
fn is_beyond(most: u16, z: i64) -> bool
    ensures { result ≡ beyond most z }
{
    let top = i64::from(most);
    z < -top || top < z
}

// One of two numbers beyond ±most. `check` and `any_beyond` call it.
fn either_beyond(most: u16, a: i64, b: i64) -> bool
    ensures { result ≡ beyond most a || beyond most b }
{
    is_beyond(most, a) || is_beyond(most, b)
}

// One of four numbers beyond ±most. `check` calls it.
fn any_beyond(most: u16, a: i64, b: i64, c: i64, d: i64) -> bool
    ensures { result ≡ (beyond most a || beyond most b) || (beyond most c || beyond most d) }
{
    either_beyond(most, a, b) || either_beyond(most, c, d)
}

// A coordinate off an axis of n nodes. `is_off_grid` calls it.
fn is_off_axis(n: usize, z: i64) -> bool
    requires { (least_side ≤ n) × (n ≤ most_side) }
    ensures { result ≡ off_axis n z }
{
    z < 32 || last_place(n) < z
}

// A place off the grid. `check` calls it.
fn is_off_grid(nx: usize, ny: usize, x: i64, y: i64) -> bool
    requires { SizeLimits nx ny }
    ensures { result ≡ off_axis nx x || off_axis ny y }
{
    is_off_axis(nx, x) || is_off_axis(ny, y)
}

// The last coordinate on an axis of n nodes. `is_off_axis` calls it.
fn last_place(n: usize) -> i64
    requires { (least_side ≤ n) × (n ≤ most_side) }
    ensures { result ≡ pos (64 * (n - 1) - 33) }
{
    (64 * (n - 1) - 33) as i64
}

// What record k is refused for: the first of the three that holds. `check` calls it.
fn answer(k: usize, fast: bool, steep: bool, off: bool) -> Result<(), Refusal>
    ensures { told result ≡ first_of fast steep off k (gives tt) }
{
    if fast {
        return Err(Refusal::NewVelocity(k));
    }
    if steep {
        return Err(Refusal::NewAffine(k));
    }
    if off {
        return Err(Refusal::NewPosition(k));
    }
    Ok(())
}

// Checks record k, which came to (x, y) with these velocities. Crate gather_particle calls it.
pub fn check(
    k: usize,
    nx: usize,
    ny: usize,
    x: i64,
    y: i64,
    a: AffineVelocity,
    b: AffineVelocity,
) -> Result<(), Refusal>
    requires { SizeLimits nx ny }
    ensures { told result ≡ check_of k nx ny x y a b }
{
    let fast = either_beyond(MOST_VELOCITY as u16, a.v, b.v);
    let steep = any_beyond(MOST_AFFINE as u16, a.bx, a.by, b.bx, b.by);
    let off = is_off_grid(nx, ny, x, y);
    answer(k, fast, steep, off)
}
