// Demand 3: what the controller consumes, in order, across every wrap. The run of a dock with its controller stands in specs/, the theorem on every
// state that a run reaches in proofs/; there is no code here.
#![tactic(auto)]
