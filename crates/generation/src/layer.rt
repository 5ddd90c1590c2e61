// One generation over a source.
ghost use Rattle.std.specs.Prelude.{◌≡◌};
ghost use Rattle.books.specs.Kinds.{closed_book};
ghost use Rattle.generation.specs.Goes.{GoesOnBy};
ghost use Rattle.generation.specs.Writing.{Meets};

use super::rewriter::Rewriter;
use books::closed_book::ClosedBook;
use word::source::Source;

pub mod source;

/// A generation of the word below, of which it reads up to 65 modules at once, where the module in hand needs more than are held.
#[derive(Drop)]
pub struct Generation<S: Source + Drop> {
    below: S,
    book: ClosedBook,
    inner: Rewriter,
    ghost goes_on: { GoesOnBy (closed_book book) },
    ghost meets: { Meets inner (S.Source.means below) },
}
