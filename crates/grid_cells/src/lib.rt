// Cells of a grid, which hold momenta or masses: adding to three neighbours in a line, as the particle-to-grid transfer does.
#![tactic(auto)]

ghost use Rattle.std.specs.Prelude.{◌≡◌, ◌<◌, ◌+◌, length, get_or, ℤ, pos, ◌+ℤ◌};
ghost use Rattle.std.specs.Int.{w64};
ghost use Rattle.std.proofs.Common.{Fits, SFits};
ghost use Rattle.grid_cells.specs.Cells.{sum_at, sum_row, RowLimits, CellLaws, momentum_laws, mass_laws};

// What a cell holds: a momentum or a mass. Adding grids to grids also calls `plus`.
pub trait Cell: Copy {
    ghost zero: { Self };

    ghost sum: { Self → Self → Self };

    ghost fits: { Self → Self → Type 0 };

    // The integer that it stands for.
    ghost value: { Self → ℤ };

    fn plus(self, other: Self) -> Self
        requires { fits self other }
        ensures { result ≡ sum self other };

    ghost laws: { CellLaws zero sum fits value };
}

impl Cell for i64 {
    ghost zero = { pos 0 };

    ghost sum = { ◌+ℤ◌ };

    ghost fits = { λ x y. SFits w64 (x +ℤ y) };

    ghost value = { λ z. z };

    fn plus(self, other: i64) -> i64 {
        self + other
    }

    ghost laws = { momentum_laws };
}

impl Cell for u64 {
    ghost zero = { 0 };

    ghost sum = { ◌+◌ };

    ghost fits = { λ x y. Fits w64 (x + y) };

    ghost value = { pos };

    fn plus(self, other: u64) -> u64 {
        self + other
    }

    ghost laws = { mass_laws };
}

// Adds v at cell k. `add_row` calls it.
fn add_at<C: Cell>(cells: &mut [C], k: usize, v: C)
    requires { (k < length cells.old) × C.fits (get_or cells.old k C.zero) v }
    ensures { cells.new ≡ sum_at C.zero C.sum cells.old k v }
{
    cells[k] = cells[k].plus(v);
}

// Adds u, v and w at cell k and its two neighbours. `scatter_block` calls it.
pub fn add_row<C: Cell>(cells: &mut [C], k: usize, u: C, v: C, w: C)
    requires { RowLimits C.value cells.old k u v w }
    ensures { cells.new ≡ sum_row C.zero C.sum cells.old k u v w }
{
    add_at(cells, k - 1, u);
    add_at(cells, k, v);
    add_at(cells, k + 1, w);
}
