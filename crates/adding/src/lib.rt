// The adding scatter: specs/ and proofs/ hold what it answers and leaves, and there is no function.
#![tactic(auto)]
