// The report of a plot: what it counted, as six lines of text.
#![tactic(auto)]

pub mod bounds;
pub mod ending;
pub mod figures;
pub mod short_buffer;
#[cfg(test)]
mod tests;
mod text;
