// Filling a book with the lines of a job.
ghost use Rattle.book.specs.Books.{empty};
ghost use Rattle.job.specs.Jobs.{lines_of, numbered};
ghost use Rattle.filling.specs.Filling.{Fills};

use super::refusal::JobRefusal;
use books::closed_book::ClosedBook;
use books::open_book::OpenBook;
use job::lines::Lines;

/// The book of a job, closed, or its first line that is refused.
pub fn fill_book(text: &[u8]) -> Result<ClosedBook, JobRefusal>
    ensures { Fills empty (numbered 3 (lines_of text.now)) result }
{
    let mut book = OpenBook::new();
    for line in Lines::of_book(text) {
        book.load(line.text)
            .map_err(|why| JobRefusal::Line(why, line.number))?;
    }
    Ok(book.close())
}
