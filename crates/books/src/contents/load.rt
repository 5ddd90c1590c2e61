ghost use Rattle.std.specs.Prelude.{◌≡◌, MatchResult};
ghost use Rattle.book.specs.Books.{rule, ignores};
ghost use Rattle.rules.specs.Refusals.{answer_number};
ghost use Rattle.rules.specs.Drafts.{rule_of};
ghost use Rattle.rules.specs.Wrong.{wrong};
ghost use Rattle.book.specs.Books.{empty, with_entry};
ghost use Rattle.books.specs.Refused.{no_place};
ghost use Rattle.books.specs.Contents.{book_in};

use super::super::code_places::CodePlaces;
use super::super::ignored::Ignored;
use super::super::rule::Rule;
use super::super::rule::order::{is_numbered, spot};
use super::super::rule_list::RuleList;
use super::Contents;
use rules::draft::Draft;
use rules::refusal::Refusal;

// A book has at most so many rules.
const MOST_RULES: usize = 48;
// Their code takes at most so many places.
const MOST_PLACES: usize = 1024;

impl Contents {
    // Not inlined: a book is put together in one place, and copied from there whole.
    #[inline(never)]
    pub(crate) fn new() -> Contents
        ensures { book_in result ≡ empty }
    {
        Contents {
            code: CodePlaces::new(),
            rules: RuleList::new(Rule::blank()),
            ignored: Ignored::new(),
        }
    }

    // Letters to ignore from now on.
    pub(crate) fn ignore(&mut self, letters: &[u8])
        ensures { book_in self.new ≡ with_entry (ignores letters.now) (book_in self.old) }
    {
        self.ignored.note(letters);
    }

    // Puts a rule with which nothing is wrong where it belongs, if there is a place for it.
    pub(crate) fn place(&mut self, draft: &Draft) -> Result<(), Refusal>
        requires { wrong (rule_of draft.now) 0 ≡ 0 }
        ensures answer { answer_number result ≡ no_place (book_in self.old) (rule_of draft.now) }
        ensures after { MatchResult result (λ _. book_in self.new ≡ with_entry (rule (rule_of draft.now)) (book_in self.old)) (λ _. book_in self.new ≡ book_in self.old) }
    {
        let rules = self.rules.as_slice();
        if is_numbered(draft.head.printed, rules) {
            return Err(Refusal::NumberHeld);
        }
        if rules.len() >= MOST_RULES {
            return Err(Refusal::TooManyRules);
        }
        let at = spot(&draft.head, rules);
        let start = self.code.used();
        if start + draft.codes.len() > MOST_PLACES {
            return Err(Refusal::TooMuchCode);
        }
        let rule = Rule::new(draft, start);
        self.code.append(draft.codes.as_slice());
        self.rules.insert(at, rule);
        Ok(())
    }
}
