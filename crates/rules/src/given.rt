// The names that the forms of a rule give.
ghost use Rattle.std.specs.Prelude.{◌≡◌, ◌++◌, take};
ghost use Rattle.std.specs.Option.{option_map};
ghost use Rattle.rows.specs.Rows.{held};
ghost use Rattle.book.specs.Records.{form_of};
ghost use Rattle.rules.specs.Places.{names_of};
ghost use Rattle.rules.specs.Picked.{head_names};

use super::head::Head;
use book::form::Form;
use rows::row::Row;

// The names of one form more.
fn add(given: &mut Row<u8, 9>, form: Form)
    ensures { held given.new ≡ take 9 (held given.old ++ (form_of form).names) }
{
    given.extend_from_slice(form.names.as_slice());
}

// The names of a side more, which may have no form.
fn add_side(given: &mut Row<u8, 9>, side: Option<Form>)
    ensures { held given.new ≡ take 9 (held given.old ++ names_of (option_map form_of side)) }
{
    if let Some(form) = side {
        add(given, form);
    }
}

/// The names that the forms of a rule give, from left to right.
pub fn given_names(head: &Head) -> Row<u8, 9>
    ensures { held result ≡ head_names head.now }
{
    let mut given = Row::new(0);
    add_side(&mut given, head.before);
    add(&mut given, head.predecessor);
    add_side(&mut given, head.behind);
    given
}
