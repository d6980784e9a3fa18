// Tissue at rest stays at rest: specs/ and proofs/ hold it, and there is no function.
#![tactic(auto)]
