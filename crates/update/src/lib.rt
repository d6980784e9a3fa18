// The answer of update: specs/ and proofs/ hold it, and there is no function.
#![tactic(auto)]
