// What a line is made of.

/// A sign by its meaning; `Stray` is any byte that no line of a book has as a sign.
#[derive(Clone, Copy, PartialEq, Eq)]
pub enum Sign {
    /// A–Z, `^`, `\`, `|` or `%`: a letter and nothing else.
    Letter(u8),
    Plus,
    Minus,
    Times,
    Over,
    Opens,
    Closes,
    Less,
    AtMost,
    Equal,
    Unequal,
    AtLeast,
    More,
    Also,
    Arrow,
    Comma,
    Colon,
    Asks,
    Ignores,
    Branches,
    Rejoins,
    Stray,
}

/// A token is its kind and its own part of the line.
#[derive(Clone, Copy)]
pub enum Token<'a> {
    Number(&'a [u8]),
    Name(&'a [u8]),
    Sign(&'a [u8]),
}
