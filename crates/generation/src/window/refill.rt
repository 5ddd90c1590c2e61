// Modules read from below.
ghost use Rattle.std.specs.Prelude.{◌≡◌, ◌<◌, length};
ghost use Rattle.generation.specs.Windows.{in_window, Refilled};
ghost use Rattle.generation.specs.Layers.{stacked, Chained};

use super::super::beyond::Beyond;
use super::super::layers::{draw_from, open_brackets};
use super::super::rewriter::Rewriter;
use super::Window;
use books::closed_book::ClosedBook;
use word::source::Source;

impl Window {
    // Moves the modules to the front of the row.
    fn to_front(&mut self)
        ensures held { in_window self.new ≡ in_window self.old }
        ensures start { self.new.start ≡ 0 }
        ensures len { self.new.len ≡ self.old.len }
        ensures first { self.new.first ≡ self.old.first }
        ensures last { self.new.last ≡ self.old.last }
    {
        self.row.copy_within(self.start..self.start + self.len, 0);
        self.start = 0;
    }

    // Reads modules from the layers below, as many as there are places for, or how the word below ends.
    #[cycle(layers)]
    pub(crate) fn refill<S: Source>(
        &mut self,
        book: &ClosedBook,
        below: &mut [Rewriter],
        source: &mut S,
    ) -> Beyond
        requires room { length (in_window self.old) < 65 }
        requires meets { self.old.last.brackets ≡ (stacked book.now below.old (S.Source.means source.old)).opened }
        requires chained { Chained book.now below.old (S.Source.means source.old) }
        ensures reads { Refilled self.old (stacked book.now below.old (S.Source.means source.old)) result self.new (stacked book.now below.new (S.Source.means source.new)) }
        ensures chained { Chained book.now below.new (S.Source.means source.new) }
    {
        self.to_front();
        let at = self.len;
        match draw_from(book, below, source, &mut self.row[at..]) {
            Ok(0) => Beyond::End,
            Ok(count) => {
                self.len = at + count;
                self.last = open_brackets(below, source);
                Beyond::Unread
            }
            Err(fault) => Beyond::Broken(fault),
        }
    }
}
