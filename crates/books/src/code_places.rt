// The code of a book.
ghost use Rattle.std.specs.Prelude.{◌≡◌, ◌≤◌, length};

use expr::code::Code;

pub mod fill;

/// 1,024 code places, of which the first `used` are filled.
// A plain struct with an array of its own, and no row, by a rule of the project.
#[derive(Clone, Copy)]
pub struct CodePlaces {
    row: [Code; 1024],
    used: usize,
    ghost wide: { length row ≡ 1_024 },
    ghost short: { used ≤ 1_024 },
}
