// What a book holds, open or closed.
ghost use Rattle.std.specs.Prelude.{◌≡◌, true, length};
ghost use Rattle.books.specs.Refused.{code_places};
ghost use Rattle.books.specs.Kept.{within, ascending};
ghost use Rattle.books.specs.Stored.{code_held, listed, rules_in};

use super::code_places::CodePlaces;
use super::ignored::Ignored;
use super::rule_list::RuleList;

pub mod load;
pub mod read;

/// Code, rules in the order in which they are tried, and ignored letters.
#[derive(Clone, Copy)]
pub struct Contents {
    code: CodePlaces,
    rules: RuleList,
    ignored: Ignored,
    ghost inside: { within (length (code_held code)) (listed rules) ≡ true },
    ghost ordered: { ascending (rules_in (code_held code) (listed rules)) ≡ true },
    ghost spent: { length (code_held code) ≡ code_places (rules_in (code_held code) (listed rules)) },
}
