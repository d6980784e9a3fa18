// Marks travel with their records: specs/ and proofs/ hold it, and there is no function.
#![tactic(auto)]
