// A letter or bracket of a successor.
ghost use Rattle.std.specs.Prelude.{◌≡◌, ◌≤◌, true};
ghost use Rattle.word.specs.Symbols.{may_have};

/// A letter with `count` arguments, or a bare bracket. The arguments are laid out in `places` code places, right behind
/// those of the piece before.
#[derive(Clone, Copy)]
pub struct Piece {
    pub letter: u8,
    pub count: u8,
    pub places: u8,
    ghost ok: { may_have letter count ≡ true },
    ghost few: { places ≤ 200 },
}

impl Piece {
    /// `[`, to fill a place where no piece is.
    pub const BLANK: Piece = Piece {
        letter: b'[',
        count: 0,
        places: 0,
    };
}
