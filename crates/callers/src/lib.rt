// The bench and the lesson page: specs/ and proofs/ hold it, and there is no function.
#![tactic(auto)]
