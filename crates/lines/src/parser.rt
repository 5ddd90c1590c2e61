// Reads a line from left to right.
ghost use Rattle.std.specs.Prelude.{◌+◌, ◌≤◌, length};
ghost use Rattle.tokens.specs.Readers.{unread};
ghost use Rattle.rules.specs.Records.{code_in};

use rules::codes::Codes;
use tokens::reader::Reader;

pub(crate) mod forms;
pub(crate) mod guards;
pub(crate) mod single;
pub(crate) mod successor;
pub(crate) mod sums;

/// A letter has at most so many names or arguments.
pub(crate) const MOST: u8 = 3;

/// What is left of a line, and the code of what was read. Each token to come may take a code place.
#[derive(Clone, Copy)]
pub(crate) struct Parser<'a> {
    pub(crate) reader: Reader<'a>,
    pub(crate) codes: Codes,
    ghost room: { length (code_in codes) + length (unread reader) ≤ 200 },
}
