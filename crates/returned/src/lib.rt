// What follows a return keeps to demand 3 from the bath returned to: specs/ and proofs/ hold it, and there is no function.
#![tactic(auto)]
