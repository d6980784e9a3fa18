// Grids added to grids: the checks of every node, and then the sums.
#![tactic(auto)]

ghost use Rattle.std.specs.Prelude.{◌≡◌, ◌≤◌, length};
ghost use Rattle.refusal.specs.Refused.{told};
ghost use Rattle.limits.specs.Limits.{most_node_mass};
ghost use Rattle.apic.specs.Step.{grids_of};
ghost use Rattle.adding.specs.Adding.{check_node, check_nodes, added_grids, Adds};
ghost use Rattle.adding.specs.Internal.{SumRoom, cell_sums, Gaining, Addable};

use grid_cells::Cell;
use limits::{MOST_NODE_MASS, MOST_PRESENT_MOMENTUM};
use refusal::Refusal;

// Node k: what it holds, and the mass that it would gain. `check_nodes` calls it.
fn check_node(k: usize, mass: u64, px: i64, py: i64, gain: u64) -> Result<(), Refusal>
    requires { gain ≤ most_node_mass }
    ensures { told result ≡ check_node k mass px py gain }
{
    if !node_momentum::momenta_within(MOST_PRESENT_MOMENTUM, mass, px, py) {
        return Err(Refusal::PresentNode(k));
    }
    if MOST_NODE_MASS - gain < mass {
        return Err(Refusal::AddedMass(k));
    }
    Ok(())
}

// Looks at every node and changes none. `add_grids` calls it.
fn check_nodes(
    count: usize,
    mass: &[u64],
    px: &[i64],
    py: &[i64],
    gain: &[u64],
) -> Result<(), Refusal>
    requires { Gaining count mass.now px.now py.now gain.now }
    ensures { told result ≡ check_nodes count (grids_of mass.now px.now py.now) gain.now }
{
    for k in 0..count {
        check_node(k, mass[k], px[k], py[k], gain[k])?;
    }
    Ok(())
}

// Adds to each cell what it gains. `add_grids` calls it of masses, and of momenta on each axis.
fn add_cells<C: Cell>(cells: &mut [C], gains: &[C])
    requires { SumRoom C.zero C.fits cells.old gains.now }
    ensures { cells.new ≡ cell_sums C.zero C.sum (length cells.old) cells.old gains.now }
{
    for k in 0..cells.len() {
        cells[k] = cells[k].plus(gains[k]);
    }
}

// Adds the grids that a scatter left to those that are lent, or says which node is refused. Crate adding_scatter calls it.
pub fn add_grids(
    count: usize,
    mass: &mut [u64],
    px: &mut [i64],
    py: &mut [i64],
    gain: &[u64],
    gainx: &[i64],
    gainy: &[i64],
) -> Result<(), Refusal>
    requires { Addable count mass.old px.old py.old gain.now gainx.now gainy.now }
    ensures { Adds (added_grids count (grids_of mass.old px.old py.old) (grids_of gain.now gainx.now gainy.now))
        mass.old px.old py.old (told result)
        mass.new px.new py.new }
{
    check_nodes(count, mass, px, py, gain)?;
    add_cells(mass, gain);
    add_cells(px, gainx);
    add_cells(py, gainy);
    Ok(())
}
