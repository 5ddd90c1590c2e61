// A book that grows.
ghost use Rattle.books.specs.Stored.{listed};
ghost use Rattle.books.specs.Index.{letters, Firsts, Nexts, Aheads};

use super::contents::Contents;
use super::letter_index::LetterIndex;

pub mod grow;

/// A book that takes no more lines. It may be copied, and layers grow by it.
#[derive(Clone, Copy)]
pub struct ClosedBook {
    contents: Contents,
    index: LetterIndex,
    ghost firsts: { Firsts (letters (listed contents.rules)) index },
    ghost nexts: { Nexts (letters (listed contents.rules)) index },
    ghost aheads: { Aheads (listed contents.rules) index },
}
