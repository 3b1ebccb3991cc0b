// The reclaim of a bulk, an interrupt or a control request by the events that stand in its places.
#![tactic(auto)]

pub mod bulk;
pub mod control;
