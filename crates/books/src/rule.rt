// A rule in a book.
ghost use Rattle.std.specs.Prelude.{◌≡◌, ◌+◌, ◌≤◌, true, map};
ghost use Rattle.rows.specs.Rows.{held};
ghost use Rattle.rules.specs.Records.{places_in, bare};
ghost use Rattle.rules.specs.Wrong.{nests, deepest};

use rows::row::Row;
use rules::head::Head;
use rules::piece::Piece;

pub mod fit;
pub mod grow;
pub mod make;
pub mod order;

/// Its code is `size` places of the book's from `start` on, the guard's first; its successor is the
/// pieces, which nest `depth` deep.
// `start` and `size` are two numbers, since a `Range` is not `Copy`, and a rule is. They are short, since a rule is copied with its
// book.
#[derive(Clone, Copy)]
pub struct Rule {
    head: Head,
    start: u16,
    size: u16,
    guard: u8,
    // a number, as `deepest` counts it; no successor nests deeper than 12, so a `Depth` would say no more
    depth: u8,
    pieces: Row<Piece, 24>,
    ghost few: { guard ≤ 200 },
    ghost within: { guard + places_in (held pieces) ≤ size },
    ghost nested: { nests 0 (map bare (held pieces)) ≡ true },
    ghost deep: { depth ≡ deepest 0 (map bare (held pieces)) },
}
