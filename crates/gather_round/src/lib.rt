// The rounding of what a gather has summed.
#![tactic(auto)]

ghost use Rattle.std.specs.Prelude.{◌≡◌, ◌^◌};
ghost use Rattle.arith.specs.Size.{Bound};
ghost use Rattle.arith.specs.Rounding.{rounded};

// Half of the divisor, and one.
const ABOVE_HALF: i64 = 8589934593;

// A gathered sum divided by 2^34, to nearest, a half to the even neighbour: half of the divisor is added, less one where the
// floor is even. Crate gather_point calls it.
pub fn rounded(sum: i64) -> i64
    requires { Bound sum 1152921504606846976 }
    ensures { result ≡ rounded sum (2 ^ 34) }
{
    (sum + ABOVE_HALF - (2 - ((sum >> 34) & 1))) >> 34
}
