// The equations of the step and what they conserve: specs/ and proofs/ hold them, and there is no function.
#![tactic(auto)]
