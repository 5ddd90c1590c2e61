// Why a seed breaks off.
ghost use Rattle.std.specs.Prelude.{◌≡◌};
ghost use Rattle.seed.specs.Parts.{cause_number};

use word::fault::Fault;

/// Why a seed breaks off, by the number of the fault.
#[derive(Clone, Copy)]
pub enum Cause {
    TooLong = 20,
    Form = 21,
    Range = 22,
    NoneOpen = 23,
    TooDeep = 24,
    StillOpen = 25,
}

impl Cause {
    // The fault at a place of the word.
    pub(crate) fn at(self, place: u32) -> Fault
        ensures { result ≡ record { cause = cause_number self; generation = 0; place = place } }
    {
        Fault {
            cause: self as u8,
            generation: 0,
            place,
        }
    }
}
