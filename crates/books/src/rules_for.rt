// The rules for one letter, taken one by one.
ghost use Rattle.std.specs.Prelude.{◌≤◌, length};
ghost use Rattle.books.specs.Index.{letters, Nexts};

use super::letter_index::LetterIndex;
use super::rule::Rule;

pub mod walk;

/// The rules for a letter still to come, in the order in which they are tried; the first stands at `at`.
#[derive(Drop)]
pub struct RulesFor<'a> {
    rules: &'a [Rule],
    index: &'a LetterIndex,
    at: usize,
    ghost few: { length rules.now ≤ 48 },
    ghost nexts: { Nexts (letters rules.now) index.now },
}
