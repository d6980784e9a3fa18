// The numbers of 64 bits that programs in other languages hand in and get: into the fields of a particle and of a header, where what
// is too large stays too large; from results, as arrays; and an answer as one number.
#![tactic(auto)]

pub mod answer;
mod narrow;

ghost use Rattle.std.specs.Prelude.{◌≡◌};
ghost use Rattle.spline.specs.Answers.{three_of};
ghost use Rattle.wide.specs.Values.{weight_values, settings, particle_with, header_with};
ghost use Rattle.wide.specs.Internal.{SameRecord, SameHeader, Narrow};

use bath_file::Header;
use particle::Particle;
use spline::AxisWeights;

// How many values a header has.
pub const SETTINGS: usize = 9;

// The particle to write for these numbers: a write answers and leaves what it would for the numbers themselves.
pub fn particle(
    identifier: u16,
    mass: u64,
    x: u64,
    y: u64,
    vx: i64,
    vy: i64,
    bxx: i64,
    bxy: i64,
    byx: i64,
    byy: i64,
    marks: u8,
) -> Particle
    ensures { SameRecord result (particle_with identifier mass x y vx vy bxx bxy byx byy marks) }
{
    Particle {
        identifier,
        mass: narrow::unsigned(mass),
        x: narrow::unsigned(x),
        y: narrow::unsigned(y),
        vx: narrow::signed(vx),
        vy: narrow::signed(vy),
        bxx: narrow::signed(bxx),
        bxy: narrow::signed(bxy),
        byx: narrow::signed(byx),
        byy: narrow::signed(byy),
        marks,
    }
}

// The header to write for these numbers, in the same way.
pub fn header(
    nx: usize,
    ny: usize,
    gx: i64,
    gy: i64,
    count: usize,
    steps: usize,
    kind: usize,
    width: usize,
    drag: usize,
) -> Header
    ensures { SameHeader result (header_with nx ny gx gy count steps kind width drag) }
{
    Header {
        nx,
        ny,
        gx: narrow::signed(gx),
        gy: narrow::signed(gy),
        count,
        steps,
        kind,
        width,
        drag,
    }
}

// Three weights, by name, as the values of a header: `From` would not say which order.
pub fn of_weights(w: AxisWeights) -> [i64; 3]
    ensures { result ≡ weight_values (three_of w) }
{
    [i64::from(w.lower), i64::from(w.nearest), i64::from(w.upper)]
}

// The values of an accepted header. `read_file` of crate by_caller calls it.
pub fn of_header(h: Header) -> [i64; SETTINGS]
    requires { Narrow h }
    ensures { result ≡ settings h }
{
    [
        h.nx as i64,
        h.ny as i64,
        i64::from(h.gx),
        i64::from(h.gy),
        h.count as i64,
        h.steps as i64,
        h.kind as i64,
        h.width as i64,
        h.drag as i64,
    ]
}
