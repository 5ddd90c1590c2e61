// Reads a line of a book.
ghost use Rattle.std.specs.Prelude.{◌≤◌, length};
ghost use Rattle.tokens.specs.Readers.{unread};
ghost use Rattle.lines.specs.Parsing.{ReadsLetters, ReadsRule};
ghost use Rattle.lines.specs.Reading.{Reads};

use super::letters::Letters;
use super::line::Line;
use super::parser::Parser;
use super::parser::forms::head;
use super::parser::single::{ended, letter, takes};
use expr::code::Code;
use rules::codes::Codes;
use rules::draft::Draft;
use rules::refusal::Refusal;
use tokens::reader::Reader;
use tokens::token::Sign;

// A line has at most so many bytes.
const LONGEST: usize = 200;

// One or more letters, to the end of the line.
fn letters(reader: &mut Reader) -> Result<Letters, Refusal>
    requires { length (unread reader.old) ≤ 200 }
    ensures { ReadsLetters result reader.old }
{
    let mut letters = Letters::new(0);
    let first = letter(reader)?;
    letters.push(first);
    while !ended(reader) {
        let next = letter(reader)?;
        letters.push(next);
    }
    Ok(letters)
}

// A rule, to the end of the line. Not inlined, and neither is `read`: a line would be put together from pieces of itself, each
// zeroed and copied by itself.
#[inline(never)]
fn rule(reader: &mut Reader) -> Result<Draft, Refusal>
    requires { length (unread reader.old) ≤ 200 }
    ensures { ReadsRule result reader.old }
{
    let head = head(reader)?;
    let mut parser = Parser {
        reader: *reader,
        codes: Codes::new(Code::Blank),
    };
    let guard = parser.guarded()?;
    let pieces = parser.successor()?;
    Ok(Draft {
        head,
        guard,
        codes: parser.codes,
        pieces,
    })
}

/// What a line says, or why it cannot be read.
#[inline(never)]
pub fn read(line: &[u8]) -> Result<Line, Refusal>
    ensures { Reads line.now result }
{
    if line.len() > LONGEST {
        return Err(Refusal::TooLong);
    }
    let mut reader = Reader::new(line);
    if takes(&mut reader, Sign::Ignores) {
        Ok(Line::Ignores(letters(&mut reader)?))
    } else {
        Ok(Line::Rule(rule(&mut reader)?))
    }
}
