// The particle-to-grid transfer of one particle, given as numbers.
#![tactic(auto)]

ghost use Rattle.std.specs.Prelude.{◌≡◌, [], ◌∷◌, ◌≤◌, pos, ◌+ℤ◌, ◌*ℤ◌};
ghost use Rattle.arith.specs.Size.{Bound};
ghost use Rattle.limits.specs.Limits.{most_position, most_affine};
ghost use Rattle.spline.specs.Kernel.{weight_in};
ghost use Rattle.scatter_particle.specs.Added.{Added, ParticleReady, unlabelled, Middle, SpeedLimits};

// The nearest node minus particle, along one axis. `add_particle` calls it.
fn middle(x: usize) -> i64
    requires { x ≤ most_position }
    ensures { Middle x result }
{
    32 - (((x + 32) % 64) as i64)
}

// A particle's momentum per mass and weight at the node that is dx and dy from it. `add_particle` calls it.
fn speed(d: u64, v: i64, bx: i64, by: i64, dx: i64, dy: i64) -> i64
    requires { SpeedLimits d v bx by dx dy }
    ensures { result ≡ pos d *ℤ v +ℤ bx *ℤ dx +ℤ by *ℤ dy }
{
    (d as i64) * v + bx * dx + by * dy
}

// What an entry of B adds from a node to its neighbour. `add_particle` calls it.
fn spread(b: i64) -> i64
    requires { Bound b most_affine }
    ensures { result ≡ pos 64 *ℤ b }
{
    64 * b
}

// Adds one particle's shares to the nine nodes around it, with the weights of the table that the caller lends and its D.
// `scatter_core` calls it.
pub fn add_particle(
    m: u64,
    x: usize,
    y: usize,
    vx: i64,
    vy: i64,
    bxx: i64,
    bxy: i64,
    byx: i64,
    byy: i64,
    nx: usize,
    ny: usize,
    table: &[[u16; 3]; 64],
    d: u64,
    mass: &mut [u64],
    px: &mut [i64],
    py: &mut [i64],
)
    requires { ParticleReady nx ny (unlabelled m x y vx vy bxx bxy byx byy) table.now d mass.old px.old py.old }
    ensures { Added (weight_in table.now) d nx ny (unlabelled m x y vx vy bxx bxy byx byy ∷ []) mass.old px.old py.old mass.new px.new py.new }
{
    let wx = spline::weights_at(table, x);
    let wy = spline::weights_at(table, y);
    let dx = middle(x);
    let dy = middle(y);
    let sx = speed(d, vx, bxx, bxy, dx, dy);
    let sy = speed(d, vy, byx, byy, dx, dy);
    let k = (y + 32) / 64 * nx + (x + 32) / 64;
    scatter_block::add_block(
        mass,
        px,
        py,
        nx,
        k,
        m,
        wx,
        wy,
        sx,
        spread(bxx),
        spread(bxy),
        sy,
        spread(byx),
        spread(byy),
    );
}
