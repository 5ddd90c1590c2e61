// Code places.

/// How two sums are compared.
#[derive(Clone, Copy, PartialEq, Eq)]
pub enum Relation {
    Less,
    AtMost,
    Equal,
    Unequal,
    AtLeast,
    More,
}

/// One place of code. Operands come first, then the sign that joins them.
#[derive(Clone, Copy)]
pub enum Code {
    Blank,
    Number(u32),
    Name(u8),
    Negate,
    Add,
    Subtract,
    Multiply,
    Divide,
    Compare(Relation),
}
