// What is told, written to places that are lent.
ghost use Rattle.std.specs.Prelude.{◌≡◌, ◌||◌, [], not};
ghost use Rattle.word.specs.Symbols.{is_bracket};
ghost use Rattle.books.specs.Kinds.{closed_book};
ghost use Rattle.books.specs.Ruled.{has_rule};
ghost use Rattle.generation.specs.Windows.{Sure};
ghost use Rattle.generation.specs.Rewriting.{pending};
ghost use Rattle.generation.specs.Writing.{Copies, Advances, Writes};

use super::super::beyond::Beyond;
use super::Rewriter;
use super::tell::END;
use super::turn::MOST;
use books::closed_book::ClosedBook;
use word::fault::Fault;
use word::letters::is_bracket;
use word::module::Module;

/// What taking the next module in hand comes to: it is taken, so that its outcome is told next, or the result ends in a fault; or
/// more has to be read from below first; or the result has ended.
#[derive(Clone, Copy)]
pub(crate) enum Step {
    Taken,
    Hungry,
    Over,
    Broken(Fault),
}

// Whether modules of a letter stay as they are: brackets do, and letters without a rule.
#[inline(always)]
fn stays(book: &ClosedBook, letter: u8) -> bool
    ensures { result ≡ (is_bracket letter || not (has_rule letter (closed_book book.now).rules)) }
{
    is_bracket(letter) || !book.has_rule_for(letter)
}

impl Rewriter {
    // Takes the next module in hand.
    #[inline(always)]
    fn advance(&mut self, book: &ClosedBook, beyond: Beyond) -> Step
        requires none { pending self.old ≡ [] }
        requires sure { Sure beyond }
        ensures { Advances book.now self.old beyond result self.new }
    {
        if let Some(fault) = self.fault {
            return Step::Broken(fault);
        }
        let Some(module) = self.window.as_slice().first().copied() else {
            return match beyond {
                Beyond::Unread => Step::Hungry,
                Beyond::End => Step::Over,
                Beyond::Broken(fault) => Step::Broken(fault),
            };
        };
        let Some(right) = self.seek(book, module, beyond) else {
            return Step::Hungry;
        };
        self.turn(book, module, right);
        Step::Taken
    }

    // Passes over the module in hand and tells it, where it stays as it is whatever its neighbours are.
    #[inline(always)]
    fn copied(&mut self, book: &ClosedBook) -> Option<Module>
        requires { pending self.old ≡ [] }
        ensures { Copies book.now self.old result self.new }
    {
        let module = self.window.as_slice().first().copied()?;
        if self.fault.is_some() || self.produced == MOST || !stays(book, module.letter) {
            return None;
        }
        let ignored = book.ignores(module.letter);
        let depth = self.window.first();
        self.lefts.note(depth, module, ignored);
        let _ = self.window.pop();
        self.produced += 1;
        self.place = (self.place + 1).min(END);
        self.opened = self.window.first();
        Some(module)
    }

    // Writes the next modules of the result to the first of some places: how many; none where more has to be read from below
    // before there is one.
    pub(crate) fn write(
        &mut self,
        book: &ClosedBook,
        places: &mut [Module],
        beyond: Beyond,
    ) -> Result<Option<usize>, Fault>
        requires { Sure beyond }
        ensures { Writes book.now self.old places.old beyond result places.new self.new }
    {
        let mut count = self.tell(places);
        while count < places.len() {
            if let Some(module) = self.copied(book) {
                places[count] = module;
                count += 1;
                continue;
            }
            match self.advance(book, beyond) {
                Step::Taken => count += self.tell(&mut places[count..]),
                Step::Hungry if count == 0 => return Ok(None),
                Step::Broken(fault) if count == 0 => return Err(fault),
                // what ends here is told at the next draw
                Step::Hungry | Step::Over | Step::Broken(_) => return Ok(Some(count)),
            }
        }
        Ok(Some(count))
    }
}
