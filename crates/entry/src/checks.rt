// The tests of the first checks: the grid buffers' lengths and gravity.
ghost use Rattle.std.specs.Prelude.{◌≡◌, T, leb, nat_abs};
ghost use Rattle.limits.specs.Limits.{most_gravity};
ghost use Rattle.std.specs.Int.Signed.{non_neg};
ghost use Rattle.entry.specs.Checks.{are_long, both_within};

use crate::Buffers;

const MOST_GRAVITY: i64 = limits::MOST_GRAVITY as i64;

// Each buffer that is lent has `count` numbers.
pub fn are_long(count: usize, buffers: Buffers) -> bool
    ensures { result ≡ are_long count buffers }
{
    match buffers {
        Buffers::None => true,
        Buffers::Two(x, y) => x == count && y == count,
        Buffers::Three(mass, x, y) => {
            if mass != count {
                return false;
            }
            x == count && y == count
        }
    }
}

// Gravity is −4096 to 4096 on both axes.
pub fn gravity_in_range(gx: i64, gy: i64) -> bool
    ensures { result ≡ both_within most_gravity gx gy }
{
    both_within(gx, gy, MOST_GRAVITY)
}

// Both numbers are −most to most. The checks of gravity and of a node's velocity call it.
pub fn both_within(x: i64, y: i64, most: i64) -> bool
    requires { T (non_neg most) }
    ensures { result ≡ both_within (nat_abs most) x y }
{
    within(x, most) && within(y, most)
}

fn within(number: i64, most: i64) -> bool
    requires { T (non_neg most) }
    ensures { result ≡ leb (nat_abs number) (nat_abs most) }
{
    -most <= number && number <= most
}
