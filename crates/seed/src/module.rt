// One module of a text.
ghost use Rattle.std.specs.Prelude.{◌≡◌, ◌<◌, ◌≤◌, false, [], ◌∷◌, length, take, drop, Some, None, IfOk, MatchOption};
ghost use Rattle.rows.specs.Rows.{held};
ghost use Rattle.word.specs.Symbols.{symbol_with};
ghost use Rattle.word.specs.Records.{symbol_of};
ghost use Rattle.word.specs.Words.{after};
ghost use Rattle.seed.specs.Seeds.{cut, form, outcome};
ghost use Rattle.seed.specs.Parts.{outcome_of};

use super::cause::Cause;
use super::parameters::read_list;
use rows::row::Row;
use word::bytes::find;
use word::depth::Depth;
use word::letters::{is_bracket, is_letter};
use word::module::Module;

// How many bytes the first module of a text has.
pub(crate) fn own_len(text: &[u8]) -> usize
    requires { 0 < length text.now }
    ensures some { 0 < result }
    ensures within { result ≤ length text.now }
    ensures first { cut false text.now ≡ take result text.now ∷ cut false (drop result text.now) }
{
    let [_, b'(', list @ ..] = text else {
        return 1;
    };
    match find(list, b')') {
        Some(end) => end + 3,
        None => text.len(),
    }
}

// The letter of a module by its form. Its parameters, not yet held to their range, are put onto a row that is lent: a row that is
// answered would be copied several times for each module.
fn read_form(own: &[u8], parameters: &mut Row<i32, 3>) -> Option<u8>
    requires { held parameters.old ≡ [] }
    ensures { MatchOption result (form own.now ≡ None) (λ letter. form own.now ≡ Some (symbol_with letter (held parameters.new))) }
{
    match own {
        [letter] if is_bracket(*letter) || is_letter(*letter) => Some(*letter),
        [letter, _, list @ ..] if is_letter(*letter) => {
            read_list(list.strip_suffix(b")")?, parameters)?;
            Some(*letter)
        }
        _ => None,
    }
}

// The module that these bytes are, and the depth behind it. By `ok_or` and `?` a bare letter takes half as long again, since what is
// handed on is copied each time.
pub(crate) fn read_module(own: &[u8], depth: Depth) -> Result<(Module, Depth), Cause>
    ensures told { outcome_of result ≡ outcome depth.brackets own.now }
    ensures behind { IfOk result (λ r. r.1.brackets ≡ after depth.brackets (symbol_of r.0)) }
{
    let mut parameters = Row::new(0);
    let Some(letter) = read_form(own, &mut parameters) else {
        return Err(Cause::Form);
    };
    let Some(module) = Module::new(letter, parameters.as_slice()) else {
        return Err(Cause::Range);
    };
    let bracketed = if module.letter == b']' {
        Cause::NoneOpen
    } else {
        Cause::TooDeep
    };
    match depth.after(module) {
        Some(after) => Ok((module, after)),
        None => Err(bracketed),
    }
}
