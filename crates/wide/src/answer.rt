// An answer as one number.
ghost use Rattle.std.specs.Prelude.{◌≡◌, ◌+◌, ◌*◌, ◌<◌};
ghost use Rattle.refusal.specs.Refused.{number, place};

use refusal::Refusal;

// What a refusal's number is multiplied by: more than any place.
const PLACES: u64 = 4294967296;

// A refusal's number and place. Crates coding, by_caller and gondwize call it with the refusal of an operation's answer.
pub fn code(refusal: Refusal) -> u64
    requires { place refusal < 4294967296 }
    ensures { result ≡ number refusal * 4294967296 + place refusal }
{
    u64::from(refusal.number()) * PLACES + refusal.place() as u64
}
