// The settings of an update, a step and a run.
#![tactic(auto)]

ghost use Rattle.std.specs.Prelude.{◌≡◌};
ghost use Rattle.limits.specs.Limits.{valid_width};
ghost use Rattle.settings.specs.Settings.{still, edge_of, settings_with, valid_edge};

use limits::{LEAST_WIDTH, MOST_WIDTH};

// The edge of the grid: open, or with a band of the outermost columns and rows, so many nodes wide. Nodes in a sticky edge's
// band rest; nodes in a slip edge's rest on x in its columns and on y in its rows.
#[derive(Clone, Copy)]
pub enum Edge {
    Open,
    Sticky(usize),
    Slip(usize),
}

// The grid's size in nodes, gravity in 256ths of a velocity unit per step, the edge, and drag in 256ths of a node's velocity.
#[derive(Clone, Copy)]
pub struct Settings {
    pub nx: usize,
    pub ny: usize,
    pub gx: i64,
    pub gy: i64,
    pub edge: Edge,
    pub drag: usize,
}

// A grid without gravity, with open edges and no drag, for an operation that is told none.
pub fn still(nx: usize, ny: usize) -> Settings
    ensures { result ≡ still nx ny }
{
    Settings {
        nx,
        ny,
        gx: 0,
        gy: 0,
        edge: Edge::Open,
        drag: 0,
    }
}

// The edge of a kind and a width, as a file and other languages give them, by number. What is no edge becomes one that is refused,
// so this cannot fail, and `TryFrom` would.
pub fn edge_of(kind: usize, width: usize) -> Edge
    ensures { result ≡ edge_of kind width }
{
    if kind == 1 {
        return Edge::Sticky(width);
    }
    if kind == 2 {
        return Edge::Slip(width);
    }
    if kind != 0 {
        return Edge::Sticky(0);
    }
    if width != 0 {
        return Edge::Sticky(0);
    }
    Edge::Open
}

// The settings of these numbers, in the same way.
pub fn of_numbers(
    nx: usize,
    ny: usize,
    gx: i64,
    gy: i64,
    kind: usize,
    width: usize,
    drag: usize,
) -> Settings
    ensures { result ≡ settings_with nx ny gx gy kind width drag }
{
    let edge = edge_of(kind, width);
    Settings {
        nx,
        ny,
        gx,
        gy,
        edge,
        drag,
    }
}

// A test by itself, as that of a mass. `edge_is_valid` calls it.
fn width_is_valid(width: usize) -> bool
    ensures { result ≡ valid_width width }
{
    LEAST_WIDTH <= width && width <= MOST_WIDTH
}

// An open edge, or one whose width its kind has.
pub fn edge_is_valid(edge: Edge) -> bool
    ensures { result ≡ valid_edge edge }
{
    match edge {
        Edge::Open => true,
        Edge::Sticky(width) => width_is_valid(width),
        Edge::Slip(width) => width_is_valid(width),
    }
}
