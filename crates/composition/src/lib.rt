// What a step and a run are made of: specs/ and proofs/ hold it, and there is no function.
#![tactic(auto)]
