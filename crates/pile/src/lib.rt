// A pile of layers on a seed: so many generations, and a pruner on top.
#![tactic(auto)]

pub mod pile;
