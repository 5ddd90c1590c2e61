ghost use Rattle.std.specs.Prelude.{◌≡◌, MatchResult};
ghost use Rattle.book.specs.Books.{rule};
ghost use Rattle.rules.specs.Refusals.{answer_number};
ghost use Rattle.rules.specs.Drafts.{rule_of};
ghost use Rattle.book.specs.Books.{empty, with_entry};
ghost use Rattle.books.specs.Refused.{refused};
ghost use Rattle.books.specs.Loading.{Loads, Law};
ghost use Rattle.books.specs.Kinds.{open_book, closed_book};

use super::super::closed_book::ClosedBook;
use super::super::contents::Contents;
use super::OpenBook;
use lines::line::Line;
use lines::read::read;
use rules::draft::Draft;
use rules::refusal::Refusal;

impl OpenBook {
    /// A book without lines.
    pub fn new() -> OpenBook
        ensures holds { open_book result ≡ empty }
        ensures law { Law }
    {
        OpenBook {
            contents: Contents::new(),
        }
    }

    /// Takes a line, or refuses it and stays as it is.
    pub fn load(&mut self, line: &[u8]) -> Result<(), Refusal>
        ensures { Loads line.now (open_book self.old) (answer_number result) (open_book self.new) }
    {
        let said = read(line)?;
        match &said {
            Line::Rule(draft) => self.add(draft),
            Line::Ignores(letters) => {
                self.contents.ignore(letters.as_slice());
                Ok(())
            }
        }
    }

    // Takes a rule, or refuses it and stays as it is.
    fn add(&mut self, draft: &Draft) -> Result<(), Refusal>
        ensures answer { answer_number result ≡ refused (open_book self.old) (rule (rule_of draft.now)) }
        ensures after { MatchResult result (λ _. open_book self.new ≡ with_entry (rule (rule_of draft.now)) (open_book self.old)) (λ _. open_book self.new ≡ open_book self.old) }
    {
        draft.judge()?;
        self.contents.place(draft)
    }

    /// The book with just these rules and ignored letters, which takes no more lines.
    pub fn close(self) -> ClosedBook
        ensures { closed_book result ≡ open_book self }
    {
        let OpenBook { contents } = self;
        ClosedBook::holding(contents)
    }
}
