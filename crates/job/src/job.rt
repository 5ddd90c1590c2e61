// Reading a job.
ghost use Rattle.job.specs.Reading.{Reads};

use super::lines::walk::cut_line;
use super::refusal::Refusal;

/// A longer job is refused.
pub const LONGEST: usize = 65_536;

/// What a job asks for: generations, and the text of the seed and that of the book.
#[derive(Clone, Copy)]
pub struct Job<'a> {
    pub generations: u8,
    pub seed: &'a [u8],
    pub book: &'a [u8],
}

/// The job that some bytes are, or why they are refused.
pub fn read_job(bytes: &[u8]) -> Result<Job<'_>, Refusal>
    ensures { Reads bytes.now result }
{
    if bytes.len() > LONGEST || !bytes.contains(&b'\n') {
        return Err(Refusal::NoJob);
    }
    let (first, others) = cut_line(bytes);
    let [digit @ b'0'..=b'8'] = first else {
        return Err(Refusal::NoJob);
    };
    let (seed, book) = cut_line(others);
    Ok(Job {
        generations: *digit - b'0',
        seed,
        book,
    })
}
