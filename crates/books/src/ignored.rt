// The letters that a book ignores.
ghost use Rattle.std.specs.Prelude.{◌≡◌, length};

pub mod note;

/// For each byte, whether it is an ignored letter.
#[derive(Clone, Copy)]
pub struct Ignored {
    row: [bool; 256],
    ghost wide: { length row ≡ 256 },
}
