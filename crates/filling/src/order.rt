// What a job asks for.
ghost use Rattle.filling.specs.Orders.{Orders};

use super::fill::fill_book;
use super::refusal::JobRefusal;
use books::closed_book::ClosedBook;
use job::job::read_job;

/// So many generations of the word of a seed text, by a book.
#[derive(Clone, Copy)]
pub struct Order<'a> {
    pub generations: u8,
    pub seed: &'a [u8],
    pub book: ClosedBook,
}

/// What the job that some bytes are asks for, or why it is refused.
pub fn order_of(bytes: &[u8]) -> Result<Order<'_>, JobRefusal>
    ensures { Orders bytes.now result }
{
    let job = read_job(bytes)?;
    let book = fill_book(job.book)?;
    Ok(Order {
        generations: job.generations,
        seed: job.seed,
        book,
    })
}
