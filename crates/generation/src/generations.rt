// Some generations, one upon the other.
ghost use Rattle.std.specs.Prelude.{◌≡◌, ◌≤◌, length, drop};
ghost use Rattle.books.specs.Kinds.{closed_book};
ghost use Rattle.generation.specs.Goes.{GoesOnBy};
ghost use Rattle.generation.specs.Layers.{Chained, chained_prop};

use super::rewriter::Rewriter;
use books::closed_book::ClosedBook;
use word::source::Source;

pub mod source;

/// Up to 8 generations of a word by one book, one upon the other: of one type, however many there are.
#[derive(Drop)]
pub struct Generations<S: Source + Drop> {
    below: S,
    book: ClosedBook,
    // those from `top` on, the topmost first
    layers: [Rewriter; 8],
    top: usize,
    ghost goes_on: { GoesOnBy (closed_book book) },
    ghost wide: { length layers ≡ 8 },
    ghost within: { top ≤ 8 },
    ghost chained: { Chained book (drop top layers) (S.Source.means below) } by { chained_prop book (drop top layers) (S.Source.means below) },
}
