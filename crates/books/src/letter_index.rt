// The rules of a book by letter.
ghost use Rattle.std.specs.Prelude.{◌≡◌, length};

pub mod make;

/// For each letter the position of the first rule for it, and for each rule that of the next rule for the same letter. Where there
/// is none, the number of rules. And for each letter and number of parameters, 0 to 3, whether a rule for them names a neighbour on
/// the right.
// Positions are bytes, since an index is copied with its book.
#[derive(Clone, Copy)]
pub struct LetterIndex {
    first: [u8; 256],
    next: [u8; 48],
    ahead: [bool; 1024],
    ghost lettered: { length first ≡ 256 },
    ghost wide: { length next ≡ 48 },
    ghost long: { length ahead ≡ 1_024 },
}
