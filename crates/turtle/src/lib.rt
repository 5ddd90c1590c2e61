// The turtle: where it stands, how it turns, and what a module has it do.
#![tactic(auto)]

pub mod act;
pub mod command;
pub mod direction;
pub mod place;
pub mod pose;
pub mod segment;
pub mod turn;
