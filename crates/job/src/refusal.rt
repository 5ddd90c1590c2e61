// Why a job is refused.
ghost use Rattle.std.specs.Prelude.{◌≡◌, ◌++◌, Some, codes, decimal};
ghost use Rattle.job.specs.Reading.{refusal_number, refusal_line};

use std::fmt;

/// Why a job is refused.
#[derive(Clone, Copy, PartialEq, Eq, Debug)]
pub enum Refusal {
    /// The bytes are no job: too many, without LF, or with another first line than one digit 0 to 8.
    NoJob = 58,
}

impl Refusal {
    /// The number of the refusal.
    pub fn number(self) -> u8
        ensures { result ≡ refusal_number self }
    {
        self as u8
    }

    /// The line that is at fault, counted from 1.
    pub fn line(self) -> usize
        ensures { result ≡ refusal_line self }
    {
        // a place in the job, not a kind: no discriminant says it beside the number
        match self {
            Refusal::NoJob => 1,
        }
    }
}

// The number, and the line.
impl fmt::Display for Refusal {
    ghost output = { λ e. Some (decimal (refusal_number e) ++ (codes " line " ++ decimal (refusal_line e))) };

    fn fmt<W: fmt::Write>(&self, f: &mut fmt::Formatter<W>) -> fmt::Result {
        let number = self.number();
        let line = self.line();
        write!(f, "{number} line {line}")
    }
}
