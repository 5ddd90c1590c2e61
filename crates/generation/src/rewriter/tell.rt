ghost use Rattle.std.specs.Prelude.{◌≡◌, ◌+◌, ◌<◌, ◌≤◌, true, length, slice_index_or};
ghost use Rattle.word.specs.Words.{after};
ghost use Rattle.word.specs.Records.{symbol_of};
ghost use Rattle.books.specs.Few.{modules_in, symbols_in};
ghost use Rattle.word.specs.Spans.{spans};
ghost use Rattle.generation.specs.Windows.{in_window};
ghost use Rattle.generation.specs.Rewriting.{Begins, TellsSome, Passes};

use super::super::lefts::Lefts;
use super::super::window::Window;
use super::Rewriter;
use books::closed_book::ClosedBook;
use books::modules::Modules;
use expr::stack::Stack;
use word::depth::Depth;
use word::module::Module;

/// No word has a module at this position.
pub(crate) const END: u32 = 16_000_000;

impl Rewriter {
    // Nothing is read of a word of this generation, before which so many brackets are open.
    pub(crate) fn new(generation: u8, depth: Depth) -> Rewriter
        ensures { Begins generation depth.brackets result }
    {
        Rewriter {
            generation,
            window: Window::empty(depth),
            lefts: Lefts::new(),
            produced: 0,
            place: 0,
            growth: Modules::new(Module::BLANK),
            stack: Stack::new(),
            told: 0,
            opened: depth,
            fault: None,
        }
    }

    // The next modules that are worked out already, written to the first of some places, as many as there are places for: how many.
    #[inline(always)]
    pub(crate) fn tell(&mut self, places: &mut [Module]) -> usize
        ensures { TellsSome self.old places.old result places.new self.new }
    {
        if self.told >= self.growth.len() {
            return 0;
        }
        let left = &self.growth.as_slice()[self.told..];
        let count = left.len().min(places.len());
        let next = &left[..count];
        places[..count].copy_from_slice(next);
        let opened = if count == left.len() {
            self.window.first()
        } else {
            self.opened.after_all(next).unwrap()
        };
        self.told += count;
        self.opened = opened;
        count
    }

    // Passes over the module in hand; its outcome, which is worked out, is told next.
    #[inline(always)]
    pub(crate) fn pass(&mut self, book: &ClosedBook, symbol: Module)
        requires first { symbol ≡ slice_index_or (in_window self.old.window) 0 symbol }
        requires some { 0 < length (in_window self.old.window) }
        requires leads { spans self.old.opened.brackets (symbols_in self.old.growth) (after self.old.window.first.brackets (symbol_of symbol)) ≡ true }
        requires room { self.old.produced + length (symbols_in self.old.growth) ≤ 16_000_000 }
        ensures { Passes book.now self.old symbol (symbols_in self.old.growth) self.new }
    {
        let ignored = book.ignores(symbol.letter);
        let depth = self.window.first();
        self.lefts.note(depth, symbol, ignored);
        let _ = self.window.pop();
        // at most 24, so it fits; a `try_from` would be no plainer
        self.produced += self.growth.len() as u32;
        self.place = (self.place + 1).min(END);
        self.told = 0;
    }
}
