// A job: what its bytes ask for.
#![tactic(auto)]

pub mod job;
pub mod lines;
pub mod refusal;
