// Words printed by way of a text.
#![tactic(auto)]

pub mod show;
mod text;
