// What one module says in a look ahead.
ghost use Rattle.std.specs.Prelude.{◌<◌};
ghost use Rattle.books.specs.Kinds.{closed_book};
ghost use Rattle.word.specs.Records.{symbol_of};
ghost use Rattle.generation.specs.Looking.{Sifts};

use books::closed_book::ClosedBook;
use word::module::Module;

/// What one module says in a look ahead: it goes on with so many brackets open, the branch is closed, or it is the neighbour.
#[derive(Clone, Copy)]
pub enum Sifted {
    On(u8),
    Closed,
    Neighbour,
}

// What one module says, where so many brackets were opened since the look began: a number, and no `Depth`, which is of a word.
#[inline(always)]
pub(crate) fn sift(book: &ClosedBook, depth: u8, symbol: Module) -> Sifted
    requires { depth < 255 }
    ensures { Sifts (closed_book book.now).ignored depth (symbol_of symbol) result }
{
    match symbol.letter {
        b'[' => Sifted::On(depth + 1),
        b']' if depth == 0 => Sifted::Closed,
        b']' => Sifted::On(depth - 1),
        letter if depth == 0 && !book.ignores(letter) => Sifted::Neighbour,
        _ => Sifted::On(depth),
    }
}
