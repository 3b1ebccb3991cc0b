// What every crate of the dock cites: definitions (specs/) and laws about them (proofs/). No function.
#![tactic(auto)]
