// A generation as a source.
ghost use Rattle.std.specs.Prelude.{◌≡◌};
ghost use Rattle.word.specs.Records.{DrawsSome};
ghost use Rattle.books.specs.Kinds.{closed_book};
ghost use Rattle.generation.specs.Generations.{generated};
ghost use Rattle.generation.specs.Rewriting.{left_in};
ghost use Rattle.generation.specs.Lawful.{lawful_in};

use super::super::layers::draw_over;
use super::super::rewriter::Rewriter;
use super::Generation;
use books::closed_book::ClosedBook;
use word::depth::Depth;
use word::fault::Fault;
use word::module::Module;
use word::source::Source;

impl<S: Source + Drop> Generation<S> {
    /// A generation over a source tells the word below rewritten by the book.
    pub fn new(below: S, book: ClosedBook) -> Generation<S>
        ensures { ⟦<Generation<S> as Source>⟧.means result ≡ generated (closed_book book) (S.Source.means below) }
    {
        let generation = below.generation();
        let depth = below.open_brackets();
        Generation {
            below,
            book,
            inner: Rewriter::new(generation, depth),
        }
    }

    // The next modules, written to the first of some places.
    fn write(&mut self, places: &mut [Module]) -> Result<usize, Fault>
        ensures { DrawsSome (left_in self.old.book self.old.inner (S.Source.means self.old.below)) places.old result places.new (left_in self.new.book self.new.inner (S.Source.means self.new.below)) }
    {
        draw_over(
            &self.book,
            &mut self.inner,
            &mut [],
            &mut self.below,
            places,
        )
    }
}

impl<S: Source + Drop> Source for Generation<S> {
    ghost means = { λ s. left_in s.book s.inner (S.Source.means s.below) };

    ghost lawful = { λ s. lawful_in s.book s.goes_on s.inner _ s.meets.joined (S.Source.lawful s.below) };

    fn draw(&mut self) -> Result<Option<Module>, Fault> {
        let mut place = [Module::BLANK];
        let count = self.write(&mut place)?;
        Ok(place[..count].first().copied())
    }

    fn draw_some(&mut self, places: &mut [Module]) -> Result<usize, Fault> {
        self.write(places)
    }

    fn open_brackets(&self) -> Depth {
        self.inner.opened
    }

    fn generation(&self) -> u8 {
        self.inner.generation.saturating_add(1)
    }
}
