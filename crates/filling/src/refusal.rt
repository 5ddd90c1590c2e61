// Why a job is refused.
ghost use Rattle.std.specs.Prelude.{◌≡◌, ◌++◌, Some, codes, decimal};
ghost use Rattle.filling.specs.declared.refusal.JobRefusal.TheVariants.{Job};
ghost use Rattle.filling.specs.Refusals.{job_refusal_number, job_refusal_line};

use rules::refusal::Refusal;
use std::fmt;

/// Why a job is refused.
#[derive(Clone, Copy, PartialEq, Eq, Debug)]
pub enum JobRefusal {
    /// The bytes are no job.
    Job(job::refusal::Refusal),
    /// The book does not take the line of this number, counted from 1 in the job.
    Line(Refusal, usize),
}

// For a program that reads a job and fills its book.
impl From<job::refusal::Refusal> for JobRefusal {
    ghost from_gives = { λ why refusal. refusal ≡ Job why };

    fn from(why: job::refusal::Refusal) -> JobRefusal {
        JobRefusal::Job(why)
    }
}

impl JobRefusal {
    /// The number of the refusal.
    pub fn number(self) -> u8
        ensures { result ≡ job_refusal_number self }
    {
        match self {
            JobRefusal::Job(why) => why.number(),
            JobRefusal::Line(why, _) => why.number(),
        }
    }

    /// The line that is at fault, counted from 1.
    pub fn line(self) -> usize
        ensures { result ≡ job_refusal_line self }
    {
        match self {
            JobRefusal::Job(why) => why.line(),
            JobRefusal::Line(_, line) => line,
        }
    }
}

// The number, and the line: written like `job`'s own, since the two share no type.
impl fmt::Display for JobRefusal {
    ghost output = { λ e. Some (decimal (job_refusal_number e) ++ (codes " line " ++ decimal (job_refusal_line e))) };

    fn fmt<W: fmt::Write>(&self, f: &mut fmt::Formatter<W>) -> fmt::Result {
        let number = self.number();
        let line = self.line();
        write!(f, "{number} line {line}")
    }
}
