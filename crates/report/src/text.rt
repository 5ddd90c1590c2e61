// A text that grows at its end.
ghost use Rattle.std.specs.Prelude.{decimal};
ghost use Rattle.std.specs.Fmt.{signed_decimal};
ghost use Rattle.rows.specs.Rows.{held};
ghost use Rattle.report.specs.Text.{Grows, counted, spaced};

use rows::row::Row;

// The most bytes that a text has. What does not fit is left out.
pub(crate) const MOST: usize = 160;

pub(crate) type Text = Row<u8, MOST>;

// A part as it is.
pub(crate) fn push(text: &mut Text, part: &[u8])
    ensures { Grows (held text.old) part.now (held text.new) }
{
    text.extend_from_slice(part);
}

// The digits of a number.
fn push_digits(text: &mut Text, number: u64)
    ensures { Grows (held text.old) (decimal number) (held text.new) }
{
    if number >= 10 {
        push_digits(text, number / 10);
    }
    push(text, &[b'0' + (number % 10) as u8]);
}

// A space, and a number.
pub(crate) fn push_number(text: &mut Text, number: u64)
    ensures { Grows (held text.old) (spaced (decimal number)) (held text.new) }
{
    push(text, b" ");
    push_digits(text, number);
}

// A space, and a number with its sign.
pub(crate) fn push_coordinate(text: &mut Text, number: i32)
    ensures { Grows (held text.old) (spaced (signed_decimal number)) (held text.new) }
{
    push(text, if number < 0 { b" -" } else { b" " });
    push_digits(text, u64::from(number.unsigned_abs()));
}

// A line of a name and a number.
pub(crate) fn push_line(text: &mut Text, name: &[u8], number: u64)
    ensures { Grows (held text.old) (counted name.now number) (held text.new) }
{
    push(text, name);
    push_number(text, number);
    push(text, b"\n");
}
