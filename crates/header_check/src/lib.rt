// The values of a header, checked against their limits, which depend on who calls.
#![tactic(auto)]

ghost use Rattle.std.specs.Prelude.{◌≡◌};
ghost use Rattle.refusal.specs.Refused.{gives, told};
ghost use Rattle.bath_file.specs.File.{checked_header};

use bath_file::Header;
use limits::{Caller, LEAST_GRAVITY, MOST_DRAG, MOST_GRAVITY, MOST_STEPS};
use refusal::Refusal;

// The answer for a header's values, read or to be written.
pub fn check_values(caller: Caller, h: Header) -> Result<Header, Refusal>
    ensures { told result ≡ checked_header caller h (gives h) }
{
    if !particles::size_is_valid(limits::most_side(caller), h.nx, h.ny) {
        return Err(Refusal::GridSize);
    }
    let gravity = limits::both_between(h.gx, h.gy, LEAST_GRAVITY, MOST_GRAVITY);
    let edge = settings::edge_is_valid(settings::edge_of(h.kind, h.width));
    let most = limits::most_records(caller);
    if !gravity {
        return Err(Refusal::Gravity);
    }
    if !edge {
        return Err(Refusal::Edge);
    }
    if MOST_DRAG < h.drag {
        return Err(Refusal::Drag);
    }
    if most < h.count {
        return Err(Refusal::Count);
    }
    if MOST_STEPS < h.steps {
        return Err(Refusal::Steps);
    }
    Ok(h)
}
