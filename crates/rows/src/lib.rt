// Rows: up to a fixed number of values, without a heap.
#![tactic(auto)]

pub mod row;
#[cfg(test)]
mod tests;
