// One module of a word.
ghost use Rattle.std.specs.Prelude.{◌≡◌, true};
ghost use Rattle.word.specs.Symbols.{sound};

pub mod make;
pub mod text;

/// A letter with `count` parameters, the first of `a`, `b` and `c`, or a bracket without any. What does not count is 0.
#[derive(Clone, Copy, PartialEq, Eq, Debug)]
pub struct Module {
    pub letter: u8,
    // three single numbers and a count, not a row: a module is a plain record by a rule of the project
    pub count: u8,
    pub a: i32,
    pub b: i32,
    pub c: i32,
    ghost ok: { sound letter count a b c ≡ true },
}
