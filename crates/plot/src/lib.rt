// A plot: it follows a word with the turtle, and puts what is drawn on whatever sheet each step is lent.
#![tactic(auto)]

pub mod both;
pub mod plot;
pub mod state;
pub mod stop;
