ghost use Rattle.std.specs.Prelude.{◌≡◌};
ghost use Rattle.books.specs.Contents.{book_in};
ghost use Rattle.books.specs.Stored.{listed};

use super::super::code_places::CodePlaces;
use super::super::rule::Rule;
use super::Contents;

impl Contents {
    // The code of all rules.
    pub(crate) fn code(&self) -> &CodePlaces
        ensures { result.now ≡ self.now.code }
    {
        &self.code
    }

    // The rules in the order in which they are tried.
    pub(crate) fn rules(&self) -> &[Rule]
        ensures { result.now ≡ listed self.now.rules }
    {
        self.rules.as_slice()
    }

    // Whether a letter is ignored.
    pub(crate) fn ignores(&self, letter: u8) -> bool
        ensures { result ≡ (book_in self.now).ignored letter }
    {
        self.ignored.has(letter)
    }
}
