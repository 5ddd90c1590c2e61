// Layers one upon the other, the topmost first, over a source.
ghost use Rattle.std.specs.Prelude.{◌≡◌};
ghost use Rattle.word.specs.Records.{DrawsSome};
ghost use Rattle.books.specs.declared.closed_book.ClosedBook.{ClosedBook};
ghost use Rattle.generation.specs.Rewriting.{left_in};
ghost use Rattle.generation.specs.Writing.{Meets};
ghost use Rattle.generation.specs.Layers.{stacked, Chained};

use super::beyond::Beyond;
use super::rewriter::Rewriter;
use books::closed_book::ClosedBook;
use word::depth::Depth;
use word::fault::Fault;
use word::module::Module;
use word::source::Source;

// How many brackets are open in what the topmost layer tells, or else the source.
pub(crate) fn open_brackets<S: Source>(layers: &[Rewriter], source: &S) -> Depth
    ensures { (b : ClosedBook) → result.brackets ≡ (stacked b layers.now (S.Source.means source.now)).opened }
{
    match layers.first() {
        Some(top) => top.opened,
        None => source.open_brackets(),
    }
}

// The next modules of the topmost layer, or else of the source.
#[cycle(layers)]
pub(crate) fn draw_from<S: Source>(
    book: &ClosedBook,
    layers: &mut [Rewriter],
    source: &mut S,
    places: &mut [Module],
) -> Result<usize, Fault>
    requires { Chained book.now layers.old (S.Source.means source.old) }
    ensures draws { DrawsSome (stacked book.now layers.old (S.Source.means source.old)) places.old result places.new (stacked book.now layers.new (S.Source.means source.new)) }
    ensures chained { Chained book.now layers.new (S.Source.means source.new) }
{
    match layers.split_first_mut() {
        None => source.draw_some(places),
        Some((top, below)) => draw_over(book, top, below, source, places),
    }
}

// The next modules of a layer over others; what is read of these is held.
#[cycle(layers)]
pub(crate) fn draw_over<S: Source>(
    book: &ClosedBook,
    top: &mut Rewriter,
    below: &mut [Rewriter],
    source: &mut S,
    places: &mut [Module],
) -> Result<usize, Fault>
    requires meets { Meets top.old (stacked book.now below.old (S.Source.means source.old)) }
    requires chained { Chained book.now below.old (S.Source.means source.old) }
    ensures draws { DrawsSome (left_in book.now top.old (stacked book.now below.old (S.Source.means source.old))) places.old result places.new (left_in book.now top.new (stacked book.now below.new (S.Source.means source.new))) }
    ensures meets { Meets top.new (stacked book.now below.new (S.Source.means source.new)) }
    ensures chained { Chained book.now below.new (S.Source.means source.new) }
{
    let mut beyond = Beyond::Unread;
    loop {
        if let Some(count) = top.write(book, places, beyond)? {
            return Ok(count);
        }
        beyond = top.window.refill(book, below, source);
    }
}
