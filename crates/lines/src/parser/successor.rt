// The successor of a rule.
ghost use Rattle.std.specs.Prelude.{◌≡◌, false, [], ◌≢◌};
ghost use Rattle.tokens.specs.Readers.{first_sign};
ghost use Rattle.lines.specs.Fits.{is_bracket_sign};
ghost use Rattle.lines.specs.Parsing.{left, ReadsArguments, ReadsPiece, ReadsSuccessor};

use super::single::{ended, expect, letter, takes};
use super::{MOST, Parser};
use rules::piece::Piece;
use rules::pieces::Pieces;
use rules::refusal::Refusal;
use tokens::token::Sign;

impl<'a> Parser<'a> {
    // One to three sums in parentheses, if there are any: how many. `names` reads its list in the same way, but from a reader
    // into a form: one function for both would take a closure that changes what it captures, of which a proof knows nothing.
    fn arguments(&mut self) -> Result<u8, Refusal>
        ensures { ReadsArguments result self.old self.new }
    {
        if !takes(&mut self.reader, Sign::Opens) {
            return Ok(0);
        }
        self.sum()?;
        let mut count = 1;
        while takes(&mut self.reader, Sign::Comma) {
            if count == MOST {
                return Err(Refusal::NotByGrammar);
            }
            self.sum()?;
            count += 1;
        }
        expect(&mut self.reader, Sign::Closes)?;
        Ok(count)
    }

    // A letter with its arguments.
    fn grown(&mut self) -> Result<Piece, Refusal>
        requires some { left self.old ≢ [] }
        requires plain { is_bracket_sign (first_sign (left self.old)) ≡ false }
        ensures { ReadsPiece result self.old self.new }
    {
        let letter = letter(&mut self.reader)?;
        let before = self.codes.len();
        let count = self.arguments()?;
        // at most 200, so it fits; a `try_from` would be no plainer
        let places = (self.codes.len() - before) as u8;
        Ok(Piece {
            letter,
            count,
            places,
        })
    }

    // A bracket, or a letter with its arguments.
    fn piece(&mut self) -> Result<Piece, Refusal>
        requires { left self.old ≢ [] }
        ensures { ReadsPiece result self.old self.new }
    {
        match self.reader.sign() {
            Some(Sign::Branches) => {
                self.reader.pass();
                Ok(Piece {
                    letter: b'[',
                    count: 0,
                    places: 0,
                })
            }
            Some(Sign::Rejoins) => {
                self.reader.pass();
                Ok(Piece {
                    letter: b']',
                    count: 0,
                    places: 0,
                })
            }
            _ => self.grown(),
        }
    }

    /// Brackets and letters to the end of the line.
    pub(crate) fn successor(&mut self) -> Result<Pieces, Refusal>
        ensures { ReadsSuccessor result self.old self.new }
    {
        let mut pieces = Pieces::new(Piece::BLANK);
        while !ended(&self.reader) {
            let piece = self.piece()?;
            pieces.push(piece);
        }
        Ok(pieces)
    }
}
