// Up to three parameters, as they are read.
ghost use Rattle.std.specs.Prelude.{◌≡◌, pos, [], Some, None, MatchOption};
ghost use Rattle.std.specs.Option.{option_map};
ghost use Rattle.word.specs.Text.{number};
ghost use Rattle.seed.specs.Seeds.{integer, parameters};
ghost use Rattle.rows.specs.Rows.{held};

use rows::row::Row;
use word::numbers::number;

// The number that 1 to 7 digits write.
fn digits(text: &[u8]) -> Option<i32>
    ensures { result ≡ option_map pos (number text.now) }
{
    // of 7 digits, so it fits; no `From` makes a `u32` an `i32`
    number(text).map(|n| n as i32)
}

// The parameter that a text is: an optional `-` and 1 to 7 digits.
fn integer(text: &[u8]) -> Option<i32>
    ensures { result ≡ integer text.now }
{
    match text {
        [b'-', behind @ ..] => Some(-digits(behind)?),
        _ => digits(text),
    }
}

// Puts the parameters of a list onto an empty row, if it is a list of 1 to 3 that are split by commas.
pub(crate) fn read_list(list: &[u8], found: &mut Row<i32, 3>) -> Option<()>
    requires { held found.old ≡ [] }
    ensures { MatchOption result (parameters list.now ≡ None) (λ _. parameters list.now ≡ Some (held found.new)) }
{
    for part in list.split(|b| *b == b',') {
        let parameter = integer(part)?;
        if found.len() == 3 {
            return None;
        }
        found.push(parameter);
    }
    Some(())
}
