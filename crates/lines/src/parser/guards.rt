// Comparisons and guards.
ghost use Rattle.std.specs.Prelude.{◌≡◌, false, MatchOption};
ghost use Rattle.book.specs.Grammar.{Part, relation_sign};
ghost use Rattle.lines.specs.Fits.{compares};
ghost use Rattle.lines.specs.Parsing.{ReadsPart, ReadsAsked, ReadsGuard};

use super::Parser;
use super::single::{expect, take_as, takes};
use expr::code::{Code, Relation};
use rules::refusal::Refusal;
use tokens::token::Sign;

// The relation that a sign compares by. A function, as `lettering` is.
fn relation(by: Sign) -> Option<Relation>
    ensures { MatchOption result (compares by ≡ false) (λ relation. by ≡ relation_sign relation) }
{
    match by {
        Sign::Less => Some(Relation::Less),
        Sign::AtMost => Some(Relation::AtMost),
        Sign::Equal => Some(Relation::Equal),
        Sign::Unequal => Some(Relation::Unequal),
        Sign::AtLeast => Some(Relation::AtLeast),
        Sign::More => Some(Relation::More),
        _ => None,
    }
}

impl<'a> Parser<'a> {
    // Two sums, and the sign that compares them.
    fn comparison(&mut self) -> Result<(), Refusal>
        ensures { ReadsPart Part.comparison result self.old self.new }
    {
        self.sum()?;
        let by = take_as(&mut self.reader, relation).ok_or(Refusal::NotByGrammar)?;
        self.sum()?;
        self.codes.push(Code::Compare(by));
        Ok(())
    }

    // Comparisons joined by `&`.
    fn guard(&mut self) -> Result<(), Refusal>
        ensures { ReadsPart Part.guard result self.old self.new }
    {
        self.comparison()?;
        while takes(&mut self.reader, Sign::Also) {
            self.comparison()?;
        }
        Ok(())
    }

    // `?` and a guard, if there are any.
    fn asked(&mut self) -> Result<(), Refusal>
        ensures { ReadsAsked result self.old self.new }
    {
        if takes(&mut self.reader, Sign::Asks) {
            self.guard()
        } else {
            Ok(())
        }
    }

    /// A guard if there is one, and the arrow: how many code places are the guard's.
    pub(crate) fn guarded(&mut self) -> Result<u8, Refusal>
        ensures { ReadsGuard result self.old self.new }
    {
        self.asked()?;
        expect(&mut self.reader, Sign::Arrow)?;
        // at most 200, so it fits; a `try_from` would be no plainer
        Ok(self.codes.len() as u8)
    }
}
