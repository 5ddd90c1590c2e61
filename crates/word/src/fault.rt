// Why a word ends before its time.
ghost use Rattle.std.specs.Prelude.{◌∷◌, ◌++◌, Some, decimal};

use std::fmt;

/// A fault names its cause, the generation that raised it, and the place in the word that this generation reads,
/// counted from 1.
#[derive(Clone, Copy, PartialEq, Eq, Debug)]
pub struct Fault {
    // a number, since each layer has causes of its own, and passes on faults whose causes it does not know
    pub cause: u8,
    pub generation: u8,
    pub place: u32,
}

// The three numbers, split by spaces.
impl fmt::Display for Fault {
    ghost output = { λ f. Some (decimal f.cause ++ (32 ∷ (decimal f.generation ++ (32 ∷ decimal f.place)))) };

    fn fmt<W: fmt::Write>(&self, f: &mut fmt::Formatter<W>) -> fmt::Result {
        let Fault {
            cause,
            generation,
            place,
        } = *self;
        write!(f, "{cause} {generation} {place}")
    }
}
