// The particle-to-grid transfer of one particle: its shares of mass and momentum are added to the nine nodes around it, line
// by line. `scatter_particle` calls this.
#![tactic(auto)]

ghost use Rattle.std.specs.Prelude.{◌≡◌, ◌*◌, ◌≤◌, length};
ghost use Rattle.scatter_block.specs.Lines.{most_line_mass, momentum_row, MomentumLimits, LineLimits, LineAdded, BlockLimits, BlockAdded};

use spline::AxisWeights;

// A mass, or a mass times one axis's weight, times a weight. `add_line` and `add_block` call it.
fn times(c: u64, w: u16) -> u64
    requires { (c ≤ most_line_mass) × (w ≤ 8192) }
    ensures { result ≡ c * w }
{
    c * u64::from(w)
}

// Adds to the momenta of three nodes in a line: mass times weight, times s, which changes by b from node to node. `add_line`
// calls it.
fn add_momenta(momenta: &mut [i64], k: usize, lower: u64, nearest: u64, upper: u64, s: i64, b: i64)
    requires { MomentumLimits momenta.old k lower nearest upper s b }
    ensures { momenta.new ≡ momentum_row momenta.old k lower nearest upper s b }
{
    let below = (lower as i64) * (s - b);
    let here = (nearest as i64) * s;
    let above = (upper as i64) * (s + b);
    grid_cells::add_row(momenta, k, below, here, above);
}

// Adds a particle's shares to three nodes in a line of each grid: c is its mass times the line's weight.
// `add_block` calls it.
fn add_line(
    mass: &mut [u64],
    px: &mut [i64],
    py: &mut [i64],
    k: usize,
    c: u64,
    w: AxisWeights,
    sx: i64,
    bx: i64,
    sy: i64,
    by: i64,
)
    requires { LineLimits (length mass.old) mass.old px.old py.old k c w sx bx sy by }
    ensures { LineAdded mass.old px.old py.old mass.new px.new py.new k c w sx bx sy by }
{
    let lower = times(c, w.lower);
    let nearest = times(c, w.nearest);
    let upper = times(c, w.upper);
    add_momenta(py, k, lower, nearest, upper, sy, by);
    add_momenta(px, k, lower, nearest, upper, sx, bx);
    grid_cells::add_row(mass, k, lower, nearest, upper);
}

// Adds a particle's shares to the nine nodes around node k of each grid. The B entries are times 64, the distance between
// neighbours; sx and sy are for node k. Crate scatter_particle calls it.
pub fn add_block(
    mass: &mut [u64],
    px: &mut [i64],
    py: &mut [i64],
    nx: usize,
    k: usize,
    m: u64,
    wx: AxisWeights,
    wy: AxisWeights,
    sx: i64,
    bxx: i64,
    bxy: i64,
    sy: i64,
    byx: i64,
    byy: i64,
)
    requires { BlockLimits (length mass.old) nx mass.old px.old py.old k m wx wy sx bxx bxy sy byx byy }
    ensures { BlockAdded nx mass.old px.old py.old mass.new px.new py.new k m wx wy sx bxx bxy sy byx byy }
{
    let below = times(m, wy.lower);
    let here = times(m, wy.nearest);
    let above = times(m, wy.upper);
    add_line(
        mass,
        px,
        py,
        k - nx,
        below,
        wx,
        sx - bxy,
        bxx,
        sy - byy,
        byx,
    );
    add_line(mass, px, py, k, here, wx, sx, bxx, sy, byx);
    add_line(
        mass,
        px,
        py,
        k + nx,
        above,
        wx,
        sx + bxy,
        bxx,
        sy + byy,
        byx,
    );
}
