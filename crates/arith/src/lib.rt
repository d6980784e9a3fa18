// Laws of whole numbers alone: specs/ holds them, proofs/ those of rounding, and there is no function.
#![tactic(auto)]
