// The letters that one line names.
use rows::row::Row;

/// Up to 200 letters: a line has no more of them than bytes.
pub type Letters = Row<u8, 200>;
