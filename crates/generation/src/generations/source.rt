// Some generations as a source.
ghost use Rattle.std.specs.Prelude.{◌≡◌, ◌<◌, suc, drop, min};
ghost use Rattle.word.specs.Records.{DrawsSome};
ghost use Rattle.books.specs.Kinds.{closed_book};
ghost use Rattle.generation.specs.Generations.{generated};
ghost use Rattle.generation.specs.Grown.{grown};
ghost use Rattle.generation.specs.Layers.{stacked, lawful_stacked};

use super::super::layers::{draw_from, open_brackets};
use super::super::rewriter::Rewriter;
use super::Generations;
use books::closed_book::ClosedBook;
use word::depth::Depth;
use word::fault::Fault;
use word::module::Module;
use word::source::Source;

impl<S: Source + Drop> Generations<S> {
    /// So many generations over a source, 8 at most, tell the word below rewritten as often by the book.
    pub fn new(below: S, book: ClosedBook, count: u8) -> Generations<S>
        ensures { ⟦<Generations<S> as Source>⟧.means result ≡ grown (min 8 count) (closed_book book) (S.Source.means below) }
    {
        let blank = Rewriter::new(below.generation(), below.open_brackets());
        let mut generations = Generations {
            below,
            book,
            layers: [blank; 8],
            top: 8,
        };
        for _ in 0..count.min(8) {
            generations.add();
        }
        generations
    }

    // One generation more, on top.
    fn add(&mut self)
        requires { 0 < self.old.top }
        ensures means { stacked self.new.book (drop self.new.top self.new.layers) (S.Source.means self.new.below) ≡ generated (closed_book self.old.book) (stacked self.old.book (drop self.old.top self.old.layers) (S.Source.means self.old.below)) }
        ensures book { self.new.book ≡ self.old.book }
        ensures top { suc self.new.top ≡ self.old.top }
    {
        let generation = self.generation();
        let depth = self.open_brackets();
        self.top -= 1;
        self.layers[self.top] = Rewriter::new(generation, depth);
    }

    // The next modules, written to the first of some places.
    fn write(&mut self, places: &mut [Module]) -> Result<usize, Fault>
        ensures { DrawsSome (stacked self.old.book (drop self.old.top self.old.layers) (S.Source.means self.old.below)) places.old result places.new (stacked self.new.book (drop self.new.top self.new.layers) (S.Source.means self.new.below)) }
    {
        draw_from(
            &self.book,
            &mut self.layers[self.top..],
            &mut self.below,
            places,
        )
    }
}

impl<S: Source + Drop> Source for Generations<S> {
    ghost means = { λ s. stacked s.book (drop s.top s.layers) (S.Source.means s.below) };

    ghost lawful = { λ s. lawful_stacked s.book s.goes_on _ _ s.chained (S.Source.lawful s.below) };

    fn draw(&mut self) -> Result<Option<Module>, Fault> {
        let mut place = [Module::BLANK];
        let count = self.write(&mut place)?;
        Ok(place[..count].first().copied())
    }

    fn draw_some(&mut self, places: &mut [Module]) -> Result<usize, Fault> {
        self.write(places)
    }

    fn open_brackets(&self) -> Depth {
        open_brackets(&self.layers[self.top..], &self.below)
    }

    fn generation(&self) -> u8 {
        match self.layers[self.top..].first() {
            Some(top) => top.generation.saturating_add(1),
            None => self.below.generation(),
        }
    }
}
