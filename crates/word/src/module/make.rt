ghost use Rattle.std.specs.Prelude.{◌≡◌, false, MatchOption};
ghost use Rattle.word.specs.Symbols.{all_in_range, may_have, symbol_with, valid};
ghost use Rattle.word.specs.Records.{symbol_of};
ghost use Rattle.rows.specs.Rows.{held};

use super::super::letters::{in_range, is_bracket, is_letter};
use super::Module;
use rows::row::Row;

// Whether a letter or bracket may have so many parameters.
fn may_have(letter: u8, count: usize) -> bool
    ensures { result ≡ may_have letter count }
{
    if is_bracket(letter) {
        count == 0
    } else {
        is_letter(letter) && count <= 3
    }
}

// Whether all numbers may be parameters.
fn all_in_range(numbers: &[i32]) -> bool
    ensures { result ≡ all_in_range numbers.now }
{
    numbers.iter().all(|x| in_range(*x))
}

impl Module {
    /// `[`, to fill a place where no module is.
    pub const BLANK: Module = Module {
        letter: b'[',
        count: 0,
        a: 0,
        b: 0,
        c: 0,
    };

    /// The module of a letter and its parameters, if there is one: a bare bracket, or a letter with at most 3 parameters in
    /// range.
    pub fn new(letter: u8, parameters: &[i32]) -> Option<Module>
        ensures { MatchOption result (valid (symbol_with letter parameters.now) ≡ false) (λ m. symbol_of m ≡ symbol_with letter parameters.now) }
    {
        if !may_have(letter, parameters.len()) || !all_in_range(parameters) {
            return None;
        }
        // at most 3, and no `From` makes a length a `u8`
        let count = parameters.len() as u8;
        match *parameters {
            [] => Some(Module {
                letter,
                count,
                a: 0,
                b: 0,
                c: 0,
            }),
            [a] => Some(Module {
                letter,
                count,
                a,
                b: 0,
                c: 0,
            }),
            [a, b] => Some(Module {
                letter,
                count,
                a,
                b,
                c: 0,
            }),
            [a, b, c, ..] => Some(Module {
                letter,
                count,
                a,
                b,
                c,
            }),
        }
    }

    /// The parameters.
    pub fn parameters(&self) -> Row<i32, 3>
        ensures { held result ≡ (symbol_of self.now).params }
    {
        let mut parameters = Row::new(0);
        parameters.extend_from_slice(&[self.a, self.b, self.c][..usize::from(self.count)]);
        parameters
    }
}
