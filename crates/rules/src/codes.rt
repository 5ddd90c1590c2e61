// The code of one line.
use expr::code::Code;
use rows::row::Row;

/// Up to 200 code places: a line has no more code than bytes.
pub type Codes = Row<Code, 200>;
