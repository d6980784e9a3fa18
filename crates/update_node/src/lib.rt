// One node of Update: its limits, and its velocity on one axis.
#![tactic(auto)]

ghost use Rattle.std.specs.Prelude.{◌≡◌, ◌≤◌, ◌^◌, pos, nat_abs};
ghost use Rattle.refusal.specs.Refused.{told};
ghost use Rattle.arith.specs.Rounding.{rounded};
ghost use Rattle.limits.specs.Limits.{most_node_mass, most_gravity};
ghost use Rattle.spline.specs.Kernel.{Spread};
ghost use Rattle.update.specs.Update.{velocity_of, breaks_mass, check_node};
ghost use Rattle.update.specs.Internal.{is_calm};
ghost use Rattle.update_node.specs.Internal.{Divisor};

use entry::checks;
use limits::{MOST_NODE_MASS, MOST_NODE_VELOCITY};
use refusal::Refusal;

// 4·(131,072 − 4096): a momentum of at most so much per unit of mass keeps the velocity's limit under every gravity, for the
// least D and so for every one.
const CALM_MOMENTUM: u64 = 507904;

// size/divisor to nearest, a half to the even neighbour. `rounded` calls it.
fn rounded_size(size: u64, divisor: u64) -> u64
    requires { (size ≤ 2 ^ 63) × Divisor divisor }
    ensures { (pos result ≡ rounded (pos size) divisor) × (result ≤ 2 ^ 62) }
{
    let quotient = size / divisor;
    let rest = size % divisor;
    if rest + quotient % 2 > divisor - rest {
        return quotient + 1;
    }
    quotient
}

// momentum/divisor to nearest, a half to the even neighbour. `velocity` calls it.
fn rounded(momentum: i64, divisor: u64) -> i64
    requires { Divisor divisor }
    ensures { (result ≡ rounded momentum divisor) × (nat_abs result ≤ 2 ^ 62) }
{
    let size = rounded_size(momentum.unsigned_abs(), divisor) as i64;
    if momentum < 0 { -size } else { size }
}

// A node's velocity on one axis. `check` and crate update_grid call it.
pub fn velocity(d: u64, gravity: i64, mass: u64, momentum: i64) -> i64
    requires { Spread d × (nat_abs gravity ≤ most_gravity) × (mass ≤ most_node_mass) }
    ensures { result ≡ velocity_of d gravity mass momentum }
{
    if mass == 0 {
        return 0;
    }
    rounded(momentum, d / 256 * mass) + gravity
}

// A mass above the limit, or none with a momentum.
fn breaks_mass(mass: u64, px: i64, py: i64) -> bool
    ensures { result ≡ breaks_mass mass px py }
{
    mass > MOST_NODE_MASS || (mass == 0 && (px != 0 || py != 0))
}

// The limits of node k. Crate update_grid calls it.
pub fn check(d: u64, k: usize, gx: i64, gy: i64, mass: u64, px: i64, py: i64) -> Result<(), Refusal>
    requires { Spread d × (nat_abs gx ≤ most_gravity) × (nat_abs gy ≤ most_gravity) }
    ensures { told result ≡ check_node d gx gy k mass px py }
{
    if breaks_mass(mass, px, py) {
        return Err(Refusal::NodeMass(k));
    }
    let vx = velocity(d, gx, mass, px);
    let vy = velocity(d, gy, mass, py);
    if !checks::both_within(vx, vy, MOST_NODE_VELOCITY) {
        return Err(Refusal::NodeVelocity(k));
    }
    Ok(())
}

// Whether a node surely breaks no limit, without a division. Crate update_grid calls it.
pub fn is_calm(mass: u64, px: i64, py: i64) -> bool
    ensures { result ≡ is_calm mass px py }
{
    node_momentum::momenta_within(CALM_MOMENTUM, mass, px, py)
}
