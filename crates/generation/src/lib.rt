// One generation of a bracketed parametric 2L-system: what it is, and its laws.
#![tactic(auto)]

ghost use Rattle.generation.specs.Agreement.{StreamsAgree};
ghost use Rattle.generation.specs.Growths.{Growths};
ghost use Rattle.generation.specs.Laws.{StaysLawful};
ghost use Rattle.generation.specs.Sentences.{NeighboursAre};

pub mod beyond;
pub mod cause;
pub mod generations;
pub mod layer;
mod layers;
pub mod lefts;
pub mod rewriter;
pub mod window;

/// The worked growths stand.
pub fn growths_stand()
    ensures { Growths }
{}

/// The neighbours are the greatest and the least position with what makes a neighbour.
pub fn neighbours_are()
    ensures { NeighboursAre }
{}

/// A generation told module by module is the generation by positions.
pub fn streams_agree()
    ensures { StreamsAgree }
{}

/// A generation of what is lawful is lawful.
pub fn generations_are_lawful()
    ensures { StaysLawful }
{}
