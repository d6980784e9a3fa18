// What stops a run. What a step and a run do stands in specs/, what follows from it in proofs/.
#![tactic(auto)]

ghost use Rattle.std.specs.Prelude.{◌≡◌};

use refusal::Refusal;

// A run that a refusal stopped: the number of completed steps, and the refusal. One that is refused at entry has completed none.
#[derive(Clone, Copy)]
pub struct Stop {
    pub completed: usize,
    pub refusal: Refusal,
}

impl From<Refusal> for Stop {
    ghost from_gives = { λ e s. s ≡ record { completed = 0; refusal = e } };

    fn from(refusal: Refusal) -> Stop {
        Stop {
            completed: 0,
            refusal,
        }
    }
}
