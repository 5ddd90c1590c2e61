// The head of a rule: its printed number and its forms.
ghost use Rattle.std.specs.Prelude.{◌≡◌, ◌<◌, true, [], ◌∷◌, ◌++◌, length};
ghost use Rattle.tokens.specs.Tokens.{is_name};
ghost use Rattle.book.specs.Records.{form_of};
ghost use Rattle.lines.specs.Parsing.{ReadsNames, ReadsForm, ReadsSides, ReadsBehind, ReadsNumber, ReadsHead};

use super::MOST;
use super::single::{expect, letter, name, takes};
use book::form::Form;
use rows::row::Row;
use rules::head::Head;
use rules::refusal::Refusal;
use tokens::reader::Reader;
use tokens::token::{Sign, Token};
use word::numbers::number;

// A form with one name more.
fn named(form: Form, name: u8) -> Form
    requires few { length (form_of form).names < 3 }
    requires name { is_name name ≡ true }
    ensures letter { result.letter ≡ form.letter }
    ensures names { (form_of result).names ≡ (form_of form).names ++ (name ∷ []) }
{
    let mut names = form.names;
    names.push(name);
    Form {
        letter: form.letter,
        names,
    }
}

// One to three names behind an opening parenthesis, and the closing one. Beside `arguments`, which says why.
fn names(reader: &mut Reader, bare: Form) -> Result<Form, Refusal>
    requires { (form_of bare).names ≡ [] }
    ensures { ReadsNames bare.letter result reader.old reader.new }
{
    let first = name(reader)?;
    let mut form = named(bare, first);
    while takes(reader, Sign::Comma) {
        if form.names.len() == usize::from(MOST) {
            return Err(Refusal::NotByGrammar);
        }
        let next = name(reader)?;
        form = named(form, next);
    }
    expect(reader, Sign::Closes)?;
    Ok(form)
}

// A letter, and its names if there are any.
fn form(reader: &mut Reader) -> Result<Form, Refusal>
    ensures { ReadsForm result reader.old reader.new }
{
    let letter = letter(reader)?;
    let bare = Form {
        letter,
        names: Row::new(0),
    };
    if takes(reader, Sign::Opens) {
        names(reader, bare)
    } else {
        Ok(bare)
    }
}

// The predecessor, behind the left form and `<` if there are any.
fn sides(reader: &mut Reader) -> Result<(Option<Form>, Form), Refusal>
    ensures { ReadsSides result reader.old reader.new }
{
    let first = form(reader)?;
    if takes(reader, Sign::Less) {
        let predecessor = form(reader)?;
        Ok((Some(first), predecessor))
    } else {
        Ok((None, first))
    }
}

// `>` and the right form, if there are any.
fn behind(reader: &mut Reader) -> Result<Option<Form>, Refusal>
    ensures { ReadsBehind result reader.old reader.new }
{
    if takes(reader, Sign::More) {
        let right = form(reader)?;
        Ok(Some(right))
    } else {
        Ok(None)
    }
}

// The printed number and its colon.
fn printed(reader: &mut Reader) -> Result<u32, Refusal>
    ensures { ReadsNumber result reader.old reader.new }
{
    let Token::Number(digits) = reader.next().ok_or(Refusal::NotByGrammar)? else {
        return Err(Refusal::NotByGrammar);
    };
    let n = number(digits).ok_or(Refusal::NotByGrammar)?;
    expect(reader, Sign::Colon)?;
    Ok(n)
}

/// What stands before the guard of a rule.
pub(crate) fn head(reader: &mut Reader) -> Result<Head, Refusal>
    ensures { ReadsHead result reader.old reader.new }
{
    let printed = printed(reader)?;
    let (before, predecessor) = sides(reader)?;
    let behind = behind(reader)?;
    Ok(Head {
        printed,
        before,
        predecessor,
        behind,
    })
}
