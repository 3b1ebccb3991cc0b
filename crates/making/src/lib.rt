// Making a ring, and configuring a periodic endpoint.
#![tactic(auto)]

pub mod configure;
pub mod make;
