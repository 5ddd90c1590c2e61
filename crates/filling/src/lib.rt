// Filling a book with the lines of a job.
#![tactic(auto)]

pub mod fill;
pub mod order;
pub mod refusal;
