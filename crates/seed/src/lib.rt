// The seed: a text read as a source of modules.
#![tactic(auto)]

mod cause;
mod module;
mod parameters;
pub mod seed;
#[cfg(test)]
mod tests;
