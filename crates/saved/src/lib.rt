// What an exported call leaves in the caller's words: the endpoint, saved where the answer changes it, and the answer's number and values.
//
// An endpoint that is saved is loaded as it was (`round_trip`).
#![tactic(auto)]

pub mod settle;
pub mod state;
