// The rim: node velocities that the edge holds become 0.
#![tactic(auto)]

ghost use Rattle.std.specs.Prelude.{◌≡◌, ◌+◌, ◌≤◌, length, ◌||◌};
ghost use Rattle.apic.specs.Step.{along_x, along_y};
ghost use Rattle.update_rim.specs.Internal.{cleared, in_part, in_columns, in_rows, held_at, BandRoom, RimRoom};

use settings::{Edge, Settings};

// Clears `count` velocities from an index on. `hold_columns` and `hold_rows` call it.
fn clear_part(velocities: &mut [i64], from: usize, count: usize)
    requires { from + count ≤ length velocities.old }
    ensures { velocities.new ≡ cleared (in_part from count) velocities.old }
{
    velocities[from..from + count].fill(0);
}

// The band's columns. `hold_band` and `hold` call it.
fn hold_columns(nx: usize, ny: usize, width: usize, velocities: &mut [i64])
    requires { BandRoom nx ny width velocities.old }
    ensures { velocities.new ≡ cleared (in_columns width nx) velocities.old }
{
    for j in 0..ny {
        let at = j * nx;
        clear_part(velocities, at, width);
        clear_part(velocities, at + nx - width, width);
    }
}

// Its rows. `hold_band` and `hold` call it.
fn hold_rows(nx: usize, ny: usize, width: usize, velocities: &mut [i64])
    requires { BandRoom nx ny width velocities.old }
    ensures { velocities.new ≡ cleared (in_rows width nx ny) velocities.old }
{
    clear_part(velocities, 0, width * nx);
    clear_part(velocities, (ny - width) * nx, width * nx);
}

// Both. `hold` calls it.
fn hold_band(nx: usize, ny: usize, width: usize, velocities: &mut [i64])
    requires { BandRoom nx ny width velocities.old }
    ensures { velocities.new ≡ cleared (λ k. in_columns width nx k || in_rows width nx ny k) velocities.old }
{
    hold_columns(nx, ny, width, velocities);
    hold_rows(nx, ny, width, velocities);
}

// The velocities of both axes, where the edge holds their nodes. Crate update_grid calls it.
pub fn hold(settings: Settings, x: &mut [i64], y: &mut [i64])
    requires { RimRoom settings x.old y.old }
    ensures { (x.new ≡ cleared (held_at settings along_x) x.old) × (y.new ≡ cleared (held_at settings along_y) y.old) }
{
    let nx = settings.nx;
    let ny = settings.ny;
    let edge = settings.edge;
    match edge {
        Edge::Open => {}
        Edge::Sticky(width) => {
            hold_band(nx, ny, width, x);
            hold_band(nx, ny, width, y);
        }
        Edge::Slip(width) => {
            hold_columns(nx, ny, width, x);
            hold_rows(nx, ny, width, y);
        }
    }
}
