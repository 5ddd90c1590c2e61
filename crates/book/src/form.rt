// A form of a rule: a letter, and names for its parameters.
ghost use Rattle.std.specs.Prelude.{◌≡◌, true};
ghost use Rattle.rows.specs.Rows.{held};
ghost use Rattle.book.specs.Forms.{sound};

use rows::row::Row;

pub mod fit;
pub mod make;

/// A letter with up to three names.
#[derive(Clone, Copy, PartialEq, Eq, Debug)]
pub struct Form {
    pub letter: u8,
    pub names: Row<u8, 3>,
    ghost ok: { sound letter (held names) ≡ true },
}
