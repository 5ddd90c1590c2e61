// The worked growths, in one list.
#![tactic(auto)]

ghost use Rattle.growths.specs.WorkedGrowths.{WorkedGrowths};

/// The worked growths stand.
pub fn growths_stand()
    ensures { WorkedGrowths }
{}
