// What a gather checks before any particle moves: sizes, records, buffers, and the velocity of every node.
#![tactic(auto)]

ghost use Rattle.std.specs.Prelude.{◌≡◌, length};
ghost use Rattle.refusal.specs.Refused.{told_of, told};
ghost use Rattle.transfer.specs.Transfer.{velocity_checks, checked_set};

use entry::Buffers;
use limits::{Caller, MOST_NODE_VELOCITY};
use refusal::Refusal;

// Looks at the velocity of every node. `check_gather` calls it.
fn check_velocities(ux: &[i64], uy: &[i64]) -> Result<(), Refusal>
    requires { length uy.now ≡ length ux.now }
    ensures { told result ≡ velocity_checks (length ux.now) ux.now uy.now }
{
    // by index: over a zip the proof does not learn that the items fit 64 bits
    for k in 0..ux.len() {
        if !entry::checks::both_within(ux[k], uy[k], MOST_NODE_VELOCITY) {
            return Err(Refusal::NodeVelocity(k));
        }
    }
    Ok(())
}

// The checks of a gather before any particle moves. Crate gather calls it.
pub fn check_gather(
    caller: Caller,
    nx: usize,
    ny: usize,
    records: &[u8],
    ux: &[i64],
    uy: &[i64],
) -> Result<(), Refusal>
    ensures { told result ≡ told_of (checked_set caller nx ny records.now ux.now uy.now) }
{
    let settings = settings::still(nx, ny);
    let buffers = Buffers::Two(ux.len(), uy.len());
    entry::check(caller, settings, buffers, 0, records)?;
    check_velocities(ux, uy)
}
