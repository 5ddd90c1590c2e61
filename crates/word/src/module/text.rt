ghost use Rattle.std.specs.Prelude.{Some};
ghost use Rattle.word.specs.Records.{symbol_of};
ghost use Rattle.word.specs.Text.{written};

use super::Module;
use std::fmt;

// The written form, as in a seed.
impl fmt::Display for Module {
    ghost output = { λ m. Some (written (symbol_of m)) };

    fn fmt<W: fmt::Write>(&self, f: &mut fmt::Formatter<W>) -> fmt::Result {
        let Module {
            letter,
            count,
            a,
            b,
            c,
        } = *self;
        let letter = char::from(letter);
        match count {
            0 => write!(f, "{letter}"),
            1 => write!(f, "{letter}({a})"),
            2 => write!(f, "{letter}({a},{b})"),
            _ => write!(f, "{letter}({a},{b},{c})"),
        }
    }
}
