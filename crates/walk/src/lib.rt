// A walk: what the modules of a word, one after the other, have the turtle do, and what is drawn so far.
#![tactic(auto)]

ghost use Rattle.walk.specs.Onwards.{Onwards};

pub mod bounds;
pub mod refusal;
pub mod walker;

/// Module by module or as a whole, a walk comes to the same.
pub fn walks_go_on()
    ensures { Onwards }
{}
