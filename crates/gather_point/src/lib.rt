// The grid-to-particle transfer at one place: velocity and affine state from the nine nodes around it.
#![tactic(auto)]

ghost use Rattle.std.specs.Prelude.{◌≡◌, ◌+◌, ◌-◌, ◌*◌, ◌<◌, ◌≤◌, length, pos, nat_abs};
ghost use Rattle.arith.specs.Size.{Bound};
ghost use Rattle.arith.specs.Sums.{Each};
ghost use Rattle.limits.specs.Limits.{most_side, most_position, most_node_velocity};
ghost use Rattle.spline.specs.Spline.{offset, nearest_node};
ghost use Rattle.gather_point.specs.Point.{weighed, SmallWeights, row_shares, SmallShares, block_of, SmallBlock, moment_about, affine_velocity_of, nine_nodes, Nine, Around, MotionAt, most_gathered};

use spline::AxisWeights;

// Of three neighbours: the weighed sum, and the upper one's share less the lower one's.
#[derive(Drop)]
struct Shares {
    sum: i64,
    tilt: i64,
}

// Of nine nodes: the weighed sum, and the shares of the upper column and row less those of the lower ones.
#[derive(Drop)]
struct Block {
    sum: i64,
    across: i64,
    up: i64,
}

// A particle's velocity on one axis, and the entries of B that pair this axis with x and with y.
#[derive(Clone, Copy)]
pub struct AffineVelocity {
    pub v: i64,
    pub bx: i64,
    pub by: i64,
}

// Both axes.
#[derive(Drop)]
pub struct Motion {
    pub x: AffineVelocity,
    pub y: AffineVelocity,
}

// Three neighbours' numbers, weighed. `row_shares` and `three_rows` call it.
fn weigh(w: AxisWeights, a: i64, b: i64, c: i64) -> Shares
    requires { Bound a 34359738368 × Bound b 34359738368 × Bound c 34359738368 }
    ensures { (result ≡ weighed w a b c) × SmallWeights w }
{
    let lower = i64::from(w.lower);
    let nearest = i64::from(w.nearest);
    let upper = i64::from(w.upper);
    Shares {
        sum: lower * a + nearest * b + upper * c,
        tilt: upper * c - lower * a,
    }
}

// Three nodes of a row, of which the first is at place `at`. `gather_axis` calls it.
fn row_shares(w: AxisWeights, u: &[i64], at: usize) -> Shares
    requires { (at + 2 < length u.now) × Each (λ z. nat_abs z ≤ most_node_velocity) u.now }
    ensures { (result ≡ row_shares w u.now at) × SmallShares result }
{
    weigh(w, u[at], u[at + 1], u[at + 2])
}

// Three rows, from the lower to the upper. `gather_axis` calls it.
fn three_rows(w: AxisWeights, a: Shares, b: Shares, c: Shares) -> Block
    requires { SmallShares a × SmallShares b × SmallShares c }
    ensures { (result ≡ block_of w a b c) × SmallBlock result }
{
    let sums = weigh(w, a.sum, b.sum, c.sum);
    let tilts = weigh(w, a.tilt, b.tilt, c.tilt);
    Block {
        sum: sums.sum,
        across: tilts.sum,
        up: sums.tilt,
    }
}

// Σ W·u·d along one axis, where the particle is at offset q from its nearest node. `affine_velocity` calls it.
fn moment(sum: i64, tilt: i64, q: i64) -> i64
    requires { Bound sum 9007199254740992 × Bound tilt 9007199254740992 × Bound q 32 }
    ensures { (result ≡ moment_about sum tilt q) × Bound result 1152921504606846976 }
{
    64 * tilt - q * sum
}

// The velocity on one axis from the sums over the nine nodes. `gather_axis` calls it.
fn affine_velocity(b: Block, qx: i64, qy: i64) -> AffineVelocity
    requires { SmallBlock b × Bound qx 32 × Bound qy 32 }
    ensures { (result ≡ affine_velocity_of b qx qy) × Bound result.v most_gathered }
{
    AffineVelocity {
        v: gather_round::rounded(b.sum),
        bx: gather_round::rounded(moment(b.sum, b.across, qx)),
        by: gather_round::rounded(moment(b.sum, b.up, qy)),
    }
}

// The offset of a coordinate from its nearest node. `gather_at` calls it.
fn offset_of(x: usize) -> i64
    requires { x ≤ most_position }
    ensures { (result ≡ offset x) × Bound result 32 }
{
    ((x + 32) % 64) as i64 - 32
}

// The place of the lowest of the nine nodes around a particle at (x, y). `gather_at` calls it.
#[tactic(auto, unfolding(spline::specs::Spline::nearest_node))]
fn first_node(nx: usize, x: usize, y: usize) -> usize
    requires { (nx ≤ most_side) × ((32 ≤ x) × (x ≤ most_position)) × ((32 ≤ y) × (y ≤ most_position)) }
    ensures { result ≡ (nearest_node y - 1) * nx + (nearest_node x - 1) }
{
    ((y + 32) / 64 - 1) * nx + ((x + 32) / 64 - 1)
}

// The velocity on one axis from its node velocities `u`, the first of the nine nodes being at place `at`. `gather_at` calls it.
fn gather_axis(
    u: &[i64],
    nx: usize,
    at: usize,
    wx: AxisWeights,
    wy: AxisWeights,
    qx: i64,
    qy: i64,
) -> AffineVelocity
    requires { Nine nx at u.now qx qy }
    ensures { (result ≡ affine_velocity_of (nine_nodes wx wy nx u.now at) qx qy) × Bound result.v most_gathered }
{
    let low = row_shares(wx, u, at);
    let middle = row_shares(wx, u, at + nx);
    let high = row_shares(wx, u, at + 2 * nx);
    affine_velocity(three_rows(wy, low, middle, high), qx, qy)
}

// The new velocities of a particle at (x, y). Crate gather_core calls it for each particle.
pub fn gather_at(
    x: usize,
    y: usize,
    nx: usize,
    table: &[[u16; 3]; 64],
    ux: &[i64],
    uy: &[i64],
) -> Motion
    requires { Around nx x y ux.now uy.now }
    ensures { MotionAt nx x y table.now ux.now uy.now result }
{
    let wx = spline::weights_at(table, x);
    let wy = spline::weights_at(table, y);
    let at = first_node(nx, x, y);
    let qx = offset_of(x);
    let qy = offset_of(y);
    Motion {
        x: gather_axis(ux, nx, at, wx, wy, qx, qy),
        y: gather_axis(uy, nx, at, wx, wy, qx, qy),
    }
}
