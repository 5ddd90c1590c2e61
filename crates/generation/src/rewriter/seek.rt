// The right neighbour of the module in hand.
ghost use Rattle.std.specs.Prelude.{◌≡◌, ◌<◌, length, slice_index_or};
ghost use Rattle.word.specs.Records.{symbol_of};
ghost use Rattle.generation.specs.Windows.{in_window, Sure};
ghost use Rattle.generation.specs.Writing.{Sees, Seeks};

use super::super::beyond::Beyond;
use super::super::cause::Cause;
use super::Rewriter;
use super::sifted::{Sifted, sift};
use books::closed_book::ClosedBook;
use word::fault::Fault;
use word::letters::is_bracket;
use word::module::Module;

impl Rewriter {
    // Looks for the right neighbour of the module in hand, among the 64 behind it. None is answered where those that are held do
    // not settle it and more may come.
    fn look(&self, book: &ClosedBook, beyond: Beyond) -> Option<Result<Option<Module>, Fault>>
        requires some { 0 < length (in_window self.now.window) }
        requires sure { Sure beyond }
        ensures { Sees book.now self.now beyond result }
    {
        let held = self.window.as_slice();
        let mut depth = 0;
        for module in &held[1..] {
            match sift(book, depth, *module) {
                Sifted::On(next) => depth = next,
                Sifted::Closed => return Some(Ok(None)),
                Sifted::Neighbour => return Some(Ok(Some(*module))),
            }
        }
        if held.len() > 64 {
            return Some(Err(self.found(Cause::Unsettled as u8)));
        }
        match beyond {
            Beyond::Unread => None,
            Beyond::End => Some(Ok(None)),
            Beyond::Broken(fault) => Some(Err(fault)),
        }
    }

    // The right neighbour of the module in hand, where a rule may need it.
    #[inline(always)]
    pub(crate) fn seek(
        &self,
        book: &ClosedBook,
        module: Module,
        beyond: Beyond,
    ) -> Option<Result<Option<Module>, Fault>>
        requires first { «module» ≡ slice_index_or (in_window self.now.window) 0 «module» }
        requires some { 0 < length (in_window self.now.window) }
        requires sure { Sure beyond }
        ensures { Seeks book.now self.now (symbol_of «module») beyond result }
    {
        if is_bracket(module.letter) || !book.looks_ahead(module) {
            return Some(Ok(None));
        }
        self.look(book, beyond)
    }
}
