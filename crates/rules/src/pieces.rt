// The successor of one line.
use super::piece::Piece;
use rows::row::Row;

/// Up to 200 letters and brackets: a line has no more of them than bytes.
pub type Pieces = Row<Piece, 200>;
