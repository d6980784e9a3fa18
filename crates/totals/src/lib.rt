// The totals of a set. What they are stands in specs/, what follows from it in proofs/.
#![tactic(auto)]

// How many sums there are.
pub const SUMS: usize = 6;

// The sums of document 01's "Totals", with document 02's motion and marks.
#[derive(Default, Drop)]
pub struct Totals {
    pub mass: i64,
    pub px: i64,
    pub py: i64,
    pub spin: i64,
    pub motion: i64,
    pub marks: i64,
}
