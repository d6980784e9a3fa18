// The update of a grid's nodes: velocity takes the momentum's place, after gravity, drag and rim.
#![tactic(auto)]

ghost use Rattle.std.specs.Prelude.{◌≡◌, ◌≤◌, length, nat_abs};
ghost use Rattle.refusal.specs.Refused.{told};
ghost use Rattle.limits.specs.Limits.{most_gravity};
ghost use Rattle.spline.specs.Kernel.{Spread};
ghost use Rattle.apic.specs.Step.{along_x, along_y};
ghost use Rattle.update.specs.Update.{check_nodes, velocities, UpdateIs};
ghost use Rattle.update.specs.Internal.{accelerated, AxisWithin, GridLimits};

use entry::Buffers;
use limits::Caller;
use refusal::Refusal;
use settings::Settings;

// Looks at every node and changes none. `update` calls it.
fn check_nodes(
    count: usize,
    d: u64,
    gx: i64,
    gy: i64,
    mass: &[u64],
    px: &[i64],
    py: &[i64],
) -> Result<(), Refusal>
    requires lengths { (length mass.now ≡ count) × ((length px.now ≡ count) × (length py.now ≡ count)) }
    requires spread { Spread d × (nat_abs gx ≤ most_gravity) × (nat_abs gy ≤ most_gravity) }
    ensures { told result ≡ check_nodes d count gx gy mass.now px.now py.now }
{
    for k in 0..count {
        if !update_node::is_calm(mass[k], px[k], py[k]) {
            update_node::check(d, k, gx, gy, mass[k], px[k], py[k])?;
        }
    }
    Ok(())
}

// Both axes of every node after gravity, where none breaks a limit. `update_all` calls it. One pass: two, an axis each, are slower.
fn accelerate(d: u64, gx: i64, gy: i64, mass: &[u64], px: &mut [i64], py: &mut [i64])
    requires { AxisWithin d gx mass.now px.old × AxisWithin d gy mass.now py.old }
    ensures { (px.new ≡ accelerated d (length px.old) gx mass.now px.old) × (py.new ≡ accelerated d (length py.old) gy mass.now py.old) }
{
    for k in 0..mass.len() {
        let m = mass[k];
        // Without mass there is no momentum, and 0 is the velocity too.
        if m != 0 {
            px[k] = update_node::velocity(d, gx, m, px[k]);
            py[k] = update_node::velocity(d, gy, m, py[k]);
        }
    }
}

// Both axes of every node, where none breaks a limit: gravity, drag, rim. `update` and the step call it.
pub fn update_all(settings: Settings, d: u64, mass: &[u64], px: &mut [i64], py: &mut [i64])
    requires { GridLimits d settings mass.now px.old py.old }
    ensures { (px.new ≡ velocities d settings along_x mass.now px.old) × (py.new ≡ velocities d settings along_y mass.now py.old) }
{
    accelerate(d, settings.gx, settings.gy, mass, px, py);
    update_drag::slow(settings.drag, px);
    update_drag::slow(settings.drag, py);
    update_rim::hold(settings, px, py);
}

// Velocity takes the momentum's place in px and py: momentum/(4·mass), rounded, plus gravity, and 0 at a node without mass;
// then drag, then the rim. A refused call leaves both as they were.
pub fn update(
    caller: Caller,
    settings: Settings,
    mass: &[u64],
    px: &mut [i64],
    py: &mut [i64],
) -> Result<(), Refusal>
    ensures { UpdateIs caller settings mass.now px.old py.old (told result) px.new py.new }
{
    let buffers = Buffers::Three(mass.len(), px.len(), py.len());
    entry::begin(caller, settings, buffers, 0, 0)?;
    let count = settings.nx * settings.ny;
    check_nodes(count, spline::D, settings.gx, settings.gy, mass, px, py)?;
    update_all(settings, spline::D, mass, px, py);
    Ok(())
}
