// The calls that write the ring: the start of a submission, its stores one by one, and the whole submission. Document 01, module 4.
//
// Each public call asks nothing, and its contract is one equation with its definition in the crate `dock`: the answer, the endpoint and every
// word of the tables that it is lent. A call is a check (the refusals in order), an act that goes by what the check showed, and an answer.
#![tactic(auto)]

pub mod start;
pub mod store;
pub mod submit;
