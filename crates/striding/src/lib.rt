// TRBs stored one behind the other, each with its place cleared and the link where it is due; a deferred TD of them.
#![tactic(auto)]

pub mod deferred;
pub mod put;
