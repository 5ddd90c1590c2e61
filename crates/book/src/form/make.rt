ghost use Rattle.std.specs.Prelude.{◌≡◌, false, MatchOption};
ghost use Rattle.std.specs.List.{list_all};
ghost use Rattle.expr.specs.Records.{is_name};
ghost use Rattle.book.specs.Forms.{sound, form_with};
ghost use Rattle.book.specs.Records.{form_of};

use super::Form;
use rows::row::Row;
use word::letters::is_letter;

// Whether all bytes are names.
fn all_names(names: &[u8]) -> bool
    ensures { result ≡ list_all is_name names.now }
{
    names.iter().all(u8::is_ascii_lowercase)
}

impl Form {
    /// The form of a letter and its names, if there is one: a letter with at most 3 names, each a–z.
    // It stays apart from `Module::new`: brackets, ranges and single numbers are there, and names in a row here.
    pub fn new(letter: u8, names: &[u8]) -> Option<Form>
        ensures { MatchOption result (sound letter names.now ≡ false) (λ f. form_of f ≡ form_with letter names.now) }
    {
        if !is_letter(letter) || names.len() > 3 || !all_names(names) {
            return None;
        }
        let mut own = Row::new(0);
        own.extend_from_slice(names);
        Some(Form { letter, names: own })
    }
}
