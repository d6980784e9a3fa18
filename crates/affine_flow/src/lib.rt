// An affine flow comes back exactly: specs/ and proofs/ hold it, and there is no function.
#![tactic(auto)]
