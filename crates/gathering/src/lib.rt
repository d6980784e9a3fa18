// The gather of a set, once the nodes' velocities are checked. What it does stands in specs/, what follows from it in
// proofs/.
#![tactic(auto)]
