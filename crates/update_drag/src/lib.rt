// Drag: each node velocity u loses u·drag/256, rounded.
#![tactic(auto)]

ghost use Rattle.std.specs.Prelude.{◌≡◌, map, ◌≤◌};
ghost use Rattle.arith.specs.Size.{Bound};
ghost use Rattle.arith.specs.Sums.{Each};
ghost use Rattle.arith.specs.Rounding.{rounded};
ghost use Rattle.limits.specs.Limits.{most_node_velocity, most_drag};
ghost use Rattle.apic.specs.Step.{after_drag};

// One velocity, after gravity. `slow` calls it.
fn slowed(drag: usize, u: i64) -> i64
    requires { Bound u most_node_velocity × (drag ≤ most_drag) }
    ensures { result ≡ after_drag rounded drag u }
{
    let part = u * (drag as i64);
    u - ((part + 127 + ((part >> 8) & 1)) >> 8)
}

// The velocities of all nodes on one axis. Crate update_grid calls it.
pub fn slow(drag: usize, velocities: &mut [i64])
    requires { Each (λ u. Bound u most_node_velocity) velocities.old × (drag ≤ most_drag) }
    ensures { velocities.new ≡ map (after_drag rounded drag) velocities.old }
{
    if drag == 0 {
        return;
    }
    for u in velocities.iter_mut() {
        *u = slowed(drag, *u);
    }
}
