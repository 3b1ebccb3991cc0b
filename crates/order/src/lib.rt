// The order theorem of a ring: what the controller consumes, and in which order. It stands in specs/ (the model) and proofs/; there is no code here.
#![tactic(auto)]
