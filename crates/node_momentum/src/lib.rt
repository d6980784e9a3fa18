// A node's momenta against its mass.
#![tactic(auto)]

ghost use Rattle.std.specs.Prelude.{◌≡◌, ◌^◌, ◌<◌};
ghost use Rattle.node_momentum.specs.Momentum.{momenta_within};

use limits::MOST_NODE_MASS;

// The mass is at most 2^43, and neither momentum is above `most` for each unit of it. The tests come in turn, a branch each: Update's
// loop is slower by one condition. Crates update_node and adding_grid call it.
pub fn momenta_within(most: u64, mass: u64, px: i64, py: i64) -> bool
    requires { most < 2 ^ 20 }
    ensures { result ≡ momenta_within most mass px py }
{
    if mass > MOST_NODE_MASS {
        return false;
    }
    let limit = (mass * most) as i64;
    if px < -limit {
        return false;
    }
    if limit < px {
        return false;
    }
    if py < -limit {
        return false;
    }
    py <= limit
}
