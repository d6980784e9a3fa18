// The adding scatter: a set is scattered on grids of its own, and these are added to those that are lent.
#![tactic(auto)]

ghost use Rattle.std.specs.Prelude.{◌*◌, ◌≤◌};
ghost use Rattle.refusal.specs.Refused.{told};
ghost use Rattle.transfer.specs.Internal.{ScatterSet};
ghost use Rattle.adding.specs.Adding.{AddingIs};
ghost use Rattle.adding.specs.Internal.{most_room, Through, AddsSet};

use limits::{Caller, MOST_SIDE};
use refusal::Refusal;

// An array for a small grid has room for so many nodes, one for any grid for so many. Of these lengths no two of the three arrays
// lie a multiple of 4,096 bytes apart, where a load from one waits for a store to another.
const SMALL_NODES: usize = 320;

const LARGE_NODES: usize = MOST_SIDE * MOST_SIDE + 64;

// Adds an accepted set by way of grids that have room for it. `add_set` calls it.
fn add_through(
    nx: usize,
    ny: usize,
    records: &[u8],
    mass: &mut [u64],
    px: &mut [i64],
    py: &mut [i64],
    a: &mut [u64],
    b: &mut [i64],
    c: &mut [i64],
) -> Result<(), Refusal>
    requires { Through nx ny records.now mass.old px.old py.old a.old b.old c.old }
    ensures { AddsSet nx ny records.now mass.old px.old py.old (told result) mass.new px.new py.new }
{
    let count = nx * ny;
    let gain = &mut a[..count];
    let gainx = &mut b[..count];
    let gainy = &mut c[..count];
    scatter::scatter_set(nx, ny, records, gain, gainx, gainy);
    adding_grid::add_grids(count, mass, px, py, gain, gainx, gainy)
}

// Adds an accepted set with grids of its own, which have room for N nodes. `adding_scatter` calls it with either size. Were it
// inlined there, every call would need the stack of the larger arrays.
#[inline(never)]
fn add_set<const N: usize>(
    nx: usize,
    ny: usize,
    records: &[u8],
    mass: &mut [u64],
    px: &mut [i64],
    py: &mut [i64],
) -> Result<(), Refusal>
    requires { ScatterSet nx ny records.now mass.old px.old py.old × (nx * ny ≤ N) × (N ≤ most_room) }
    ensures { AddsSet nx ny records.now mass.old px.old py.old (told result) mass.new px.new py.new }
{
    let mut a = [0u64; N];
    let mut b = [0i64; N];
    let mut c = [0i64; N];
    add_through(nx, ny, records, mass, px, py, &mut a, &mut b, &mut c)
}

// Adds a set to the masses and momenta that the grids hold, node by node. A refused call leaves them as they were.
pub fn adding_scatter(
    caller: Caller,
    nx: usize,
    ny: usize,
    records: &[u8],
    mass: &mut [u64],
    px: &mut [i64],
    py: &mut [i64],
) -> Result<(), Refusal>
    ensures { AddingIs caller nx ny records.now mass.old px.old py.old (told result) mass.new px.new py.new }
{
    scatter::check_scatter(caller, nx, ny, records, mass.len(), px.len(), py.len())?;
    // An array is cleared at each call, so a grid takes the smaller where that has room.
    if nx * ny <= SMALL_NODES {
        return add_set::<SMALL_NODES>(nx, ny, records, mass, px, py);
    }
    add_set::<LARGE_NODES>(nx, ny, records, mass, px, py)
}
