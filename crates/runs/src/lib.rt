// A plot that follows a whole word.
#![tactic(auto)]

pub mod run;
