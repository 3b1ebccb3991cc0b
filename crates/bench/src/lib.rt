// The bench's own lines: the controller's steps, a slot and the state as they stand, a forged word and a forged next id. None of them calls the dock.
#![tactic(auto)]

pub mod serve;
pub mod tools;
