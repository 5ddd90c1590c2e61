// Expressions as code, and what they come to.
#![tactic(auto)]

ghost use Rattle.expr.specs.Examples.{Examples, ReadsBack};

pub mod code;
pub mod computed;
pub mod names;
pub mod stack;
mod values;

/// The worked examples stand.
pub fn examples_stand()
    ensures { Examples }
{}

/// Code lays out just what it is the code of.
pub fn code_is_read_back()
    ensures { ReadsBack }
{}
