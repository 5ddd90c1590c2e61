ghost use Rattle.std.specs.Prelude.{◌≡◌, ◌≤◌, length};
ghost use Rattle.std.specs.Iterator.{YieldsFirstRef, item_count};
ghost use Rattle.books.specs.Index.{letters, with_letter, Firsts, Nexts};
ghost use Rattle.books.specs.Walking.{to_come};

use super::super::letter_index::LetterIndex;
use super::super::rule::Rule;
use super::RulesFor;

impl<'a> RulesFor<'a> {
    // Those for a letter among some rules, by the index of those rules.
    pub(crate) fn new(letter: u8, rules: &'a [Rule], index: &'a LetterIndex) -> RulesFor<'a>
        requires few { length rules.now ≤ 48 }
        requires firsts { Firsts (letters rules.now) index.now }
        requires nexts { Nexts (letters rules.now) index.now }
        ensures { to_come result ≡ with_letter letter rules.now }
    {
        let at = index.first(letter);
        RulesFor { rules, index, at }
    }
}

impl<'a> Iterator for RulesFor<'a> {
    type Item = &'a Rule;

    ghost next_gives = { YieldsFirstRef to_come };

    ghost remaining = { item_count to_come };

    fn next(&mut self) -> Option<&'a Rule> {
        let rule = self.rules.get(self.at)?;
        self.at = self.index.next(self.at);
        Some(rule)
    }
}
