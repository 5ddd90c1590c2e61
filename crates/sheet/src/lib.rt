// Sheets, that segments are put on: a page writes them down, a tally only counts them.
#![tactic(auto)]

pub mod page;
mod record;
pub mod sheet;
pub mod tally;
