// One particle's share of the totals, two totals added, and totals as an array.
#![tactic(auto)]

ghost use Rattle.std.specs.Prelude.{◌≡◌, ◌+ℤ◌, ◌-ℤ◌, ◌*ℤ◌};
ghost use Rattle.totals.specs.Totals.{sums};
ghost use Rattle.totals.specs.Share.{share, plus};
ghost use Rattle.totals_share.specs.Fits.{LinearFits, AngularFits, StraightFits, TurningFits, MotionFits, SumFits};

use particle::Particle;
use totals::{SUMS, Totals};

// One particle's share of momentum on an axis. `share_of` calls it.
fn linear_share(m: i64, v: i64) -> i64
    requires { LinearFits m v }
    ensures { result ≡ m *ℤ v }
{
    m * v
}

// One particle's share of angular momentum. `share_of` calls it.
fn angular_share(m: i64, x: i64, y: i64, vx: i64, vy: i64, byx: i64, bxy: i64) -> i64
    requires { AngularFits m x y vx vy byx bxy }
    ensures { result ≡ m *ℤ (x *ℤ vy -ℤ y *ℤ vx +ℤ byx -ℤ bxy) }
{
    m * (x * vy - y * vx + byx - bxy)
}

// The straight part of a particle's motion for each unit of its mass. `share_of` calls it.
fn straight_part(d: i64, vx: i64, vy: i64) -> i64
    requires { StraightFits d vx vy }
    ensures { result ≡ d *ℤ (vx *ℤ vx +ℤ vy *ℤ vy) }
{
    d * (vx * vx + vy * vy)
}

// The turning part of a particle's motion for each unit of its mass. `share_of` calls it.
fn turning_part(bxx: i64, bxy: i64, byx: i64, byy: i64) -> i64
    requires { TurningFits bxx bxy byx byy }
    ensures { result ≡ bxx *ℤ bxx +ℤ bxy *ℤ bxy +ℤ byx *ℤ byx +ℤ byy *ℤ byy }
{
    bxx * bxx + bxy * bxy + byx * byx + byy * byy
}

// One particle's share of motion. `share_of` calls it.
fn motion_share(m: i64, straight: i64, turning: i64) -> i64
    requires { MotionFits m straight turning }
    ensures { result ≡ m *ℤ (straight +ℤ turning) }
{
    m * (straight + turning)
}

// One particle's share of the totals.
pub fn share_of(p: Particle) -> Totals
    ensures { result ≡ share p }
{
    let m = i64::from(p.mass);
    let x = i64::from(p.x);
    let y = i64::from(p.y);
    let vx = i64::from(p.vx);
    let vy = i64::from(p.vy);
    let bxx = i64::from(p.bxx);
    let bxy = i64::from(p.bxy);
    let byx = i64::from(p.byx);
    let byy = i64::from(p.byy);
    Totals {
        mass: m,
        px: linear_share(m, vx),
        py: linear_share(m, vy),
        spin: angular_share(m, x, y, vx, vy, byx, bxy),
        motion: motion_share(
            m,
            straight_part(spline::D as i64, vx, vy),
            turning_part(bxx, bxy, byx, byy),
        ),
        marks: i64::from(p.marks),
    }
}

// The sum of two totals. `next_particle` of crate `totals_set` calls it with totals of a set's part and of one particle.
pub fn plus_of(s: Totals, t: Totals) -> Totals
    requires { SumFits s t }
    ensures { result ≡ plus s t }
{
    Totals {
        mass: s.mass + t.mass,
        px: s.px + t.px,
        py: s.py + t.py,
        spin: s.spin + t.spin,
        motion: s.motion + t.motion,
        marks: s.marks + t.marks,
    }
}

// The sums, in the order of the report's line: by name, as a particle's numbers.
pub fn sums_of(t: Totals) -> [i64; SUMS]
    ensures { result ≡ sums t }
{
    [t.mass, t.px, t.py, t.spin, t.motion, t.marks]
}
