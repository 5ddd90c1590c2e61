// The outcome of one module.
ghost use Rattle.std.specs.Prelude.{◌≡◌, ℕ, ◌<◌, true, false, [], ◌∷◌, length, slice_index_or};
ghost use Rattle.std.specs.Option.{option_map};
ghost use Rattle.word.specs.Symbols.{is_bracket};
ghost use Rattle.word.specs.Words.{after, broken, in_bounds};
ghost use Rattle.word.specs.Records.{symbol_of};
ghost use Rattle.books.specs.Few.{symbols_in};
ghost use Rattle.generation.specs.Generations.{found, added};
ghost use Rattle.word.specs.Spans.{spans};
ghost use Rattle.generation.specs.Windows.{in_window};
ghost use Rattle.generation.specs.Rewriting.{Answers, pending, with_right, part_of, Sound, Turned, Worked};

use super::super::cause::Cause;
use super::Rewriter;
use books::closed_book::ClosedBook;
use books::site::Site;
use word::fault::Fault;
use word::letters::is_bracket;
use word::module::Module;

/// The result has at most so many modules.
pub(crate) const MOST: u32 = 16_000_000;
/// Brackets nest at most so deep.
const DEEPEST: u8 = 32;

impl Rewriter {
    // The fault of this number at the module in hand: a number, since it is a cause of this layer or one of an expression.
    pub(crate) fn found(&self, cause: u8) -> Fault
        ensures is { result ≡ found self.now.generation self.now.place cause }
        ensures bounds { in_bounds (broken result) ≡ true }
    {
        Fault {
            cause,
            generation: self.generation.saturating_add(1),
            place: self.place + 1,
        }
    }

    // The result has room for what is worked out, or that is the fault.
    #[inline(always)]
    fn room(&self) -> Result<(), Fault>
        ensures { (e : ℕ) → spans self.now.window.first.brackets (symbols_in self.now.growth) e ≡ true → Answers self.now.produced self.now.window.first.brackets e (added self.now.generation self.now.produced self.now.place (symbols_in self.now.growth)) result (symbols_in self.now.growth) }
    {
        // at most 24, so it fits; a `try_from` would be no plainer
        if self.produced + self.growth.len() as u32 > MOST {
            return Err(self.found(Cause::TooLong as u8));
        }
        Ok(())
    }

    // Works out a bracket, which stays as it is.
    #[inline(always)]
    fn keep(&mut self, symbol: Module) -> Result<(), Fault>
        requires may { spans self.old.window.first.brackets (symbol_of symbol ∷ []) (after self.old.window.first.brackets (symbol_of symbol)) ≡ true }
        requires none { pending self.old ≡ [] }
        ensures { Worked (added self.old.generation self.old.produced self.old.place (symbol_of symbol ∷ [])) (after self.old.window.first.brackets (symbol_of symbol)) self.old result self.new }
    {
        self.growth.clear();
        self.growth.push(symbol);
        self.told = self.growth.len();
        self.room()
    }

    // Works out what the rules make of a letter between its neighbours.
    #[inline(always)]
    fn work(
        &mut self,
        book: &ClosedBook,
        symbol: Module,
        right: Option<Module>,
    ) -> Result<(), Fault>
        requires letter { is_bracket symbol.letter ≡ false }
        requires none { pending self.old ≡ [] }
        ensures { Worked (with_right book.now self.old (symbol_of symbol) (option_map symbol_of right)) self.old.window.first.brackets self.old result self.new }
    {
        let depth = self.window.first();
        let site = Site {
            left: self.lefts.at(depth),
            module: symbol,
            right,
        };
        let worked = book.becomes(site, &mut self.growth, &mut self.stack);
        // it is told once the module is passed
        self.told = self.growth.len();
        let nested = worked.map_err(|cause| self.found(cause.number()))?;
        if nested > DEEPEST - depth.brackets {
            return Err(self.found(Cause::TooDeep as u8));
        }
        self.room()
    }

    // Works out the module in hand, by what is found on its right.
    #[inline(always)]
    fn outcome(
        &mut self,
        book: &ClosedBook,
        symbol: Module,
        right: Result<Option<Module>, Fault>,
    ) -> Result<(), Fault>
        requires may { spans self.old.window.first.brackets (symbol_of symbol ∷ []) (after self.old.window.first.brackets (symbol_of symbol)) ≡ true }
        requires none { pending self.old ≡ [] }
        requires sound { Sound right }
        ensures { Worked (part_of book.now self.old (symbol_of symbol) right) (after self.old.window.first.brackets (symbol_of symbol)) self.old result self.new }
    {
        if is_bracket(symbol.letter) {
            return self.keep(symbol);
        }
        self.work(book, symbol, right?)
    }

    // Takes the module in hand, by what is found on its right: its outcome is told next, or the result ends in a fault.
    #[inline(always)]
    pub(crate) fn turn(
        &mut self,
        book: &ClosedBook,
        symbol: Module,
        right: Result<Option<Module>, Fault>,
    )
        requires first { symbol ≡ slice_index_or (in_window self.old.window) 0 symbol }
        requires some { 0 < length (in_window self.old.window) }
        requires none { pending self.old ≡ [] }
        requires sound { Sound right }
        ensures { Turned book.now self.old symbol (part_of book.now self.old (symbol_of symbol) right) self.new }
    {
        match self.outcome(book, symbol, right) {
            Ok(()) => self.pass(book, symbol),
            Err(fault) => self.fault = Some(fault),
        }
    }
}
