// The limits of document 01 ("Units" and "Records") and of document 02 by name, and the tests against them.
#![tactic(auto)]

ghost use Rattle.std.specs.Prelude.{◌≡◌, ◌&&◌, ◌||◌};
ghost use Rattle.limits.specs.Limits.{between, isℤ, valid_mass, valid_position, most_side_of, most_records_of};

// The number of nodes along an axis.
pub const LEAST_SIDE: usize = 4;

pub const MOST_SIDE: usize = 48;

// The values of a particle.
pub const LEAST_MASS: u16 = 1;

pub const MOST_MASS: u16 = 1023;

pub const MOST_VELOCITY: i16 = 63;

pub const LEAST_VELOCITY: i16 = -MOST_VELOCITY;

pub const MOST_AFFINE: i16 = 2047;

pub const LEAST_AFFINE: i16 = -MOST_AFFINE;

pub const MOST_POSITION: u16 = 4095;

// The number of records in a set, and their mass.
pub const MOST_RECORDS: usize = 4096;

pub const MOST_TOTAL_MASS: u64 = 131072;

// A node's mass, and its velocity on an axis in 256ths of a velocity unit.
pub const MOST_NODE_MASS: u64 = 0x800_0000_0000;

pub const MOST_NODE_VELOCITY: i64 = 131072;

// A present node's momentum on an axis, for each unit of its mass.
pub const MOST_PRESENT_MOMENTUM: u64 = 457536;

// Gravity on an axis, and the number of steps.
pub const MOST_GRAVITY: i16 = 4096;

pub const LEAST_GRAVITY: i16 = -MOST_GRAVITY;

pub const MOST_STEPS: usize = 10000;

// The width of an edge that has a band, in nodes, and drag in 256ths of a velocity per step.
pub const LEAST_WIDTH: usize = 1;

pub const MOST_WIDTH: usize = 3;

pub const MOST_DRAG: usize = 255;

// The lesson page's number of nodes along an axis, and of records in a set.
const MOST_PAGE_SIDE: usize = 16;

const MOST_PAGE_RECORDS: usize = 512;

// Who calls an operation: the bench, or the lesson page, which has smaller limits.
#[derive(Clone, Copy)]
pub enum Caller {
    Bench,
    Page,
}

// The most nodes along an axis that a caller may have. A caller's two limits are read by name, so each has a function.
pub fn most_side(caller: Caller) -> usize
    ensures { result ≡ most_side_of caller }
{
    match caller {
        Caller::Bench => MOST_SIDE,
        Caller::Page => MOST_PAGE_SIDE,
    }
}

// The most records in a set that a caller may have.
pub fn most_records(caller: Caller) -> usize
    ensures { result ≡ most_records_of caller }
{
    match caller {
        Caller::Bench => MOST_RECORDS,
        Caller::Page => MOST_PAGE_RECORDS,
    }
}

fn between(value: i16, low: i16, high: i16) -> bool
    ensures { result ≡ between low high value }
{
    low <= value && value <= high
}

pub fn both_between(a: i16, b: i16, low: i16, high: i16) -> bool
    ensures { result ≡ between low high a && between low high b }
{
    between(a, low, high) && between(b, low, high)
}

pub fn one_is(a: i16, b: i16, value: i16) -> bool
    ensures { result ≡ isℤ value a || isℤ value b }
{
    between(a, value, value) || between(b, value, value)
}

// A test by itself: one for every type and pair of limits would be no plainer.
pub fn mass_is_valid(mass: u16) -> bool
    ensures { result ≡ valid_mass mass }
{
    LEAST_MASS <= mass && mass <= MOST_MASS
}

pub fn position_is_valid(x: u16, y: u16) -> bool
    ensures { result ≡ valid_position x && valid_position y }
{
    x <= MOST_POSITION && y <= MOST_POSITION
}
