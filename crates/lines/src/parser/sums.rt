// Sums, products, factors and operands call one another; each call leaves less of the line unread.
ghost use Rattle.std.specs.Prelude.{◌≡◌, false, MatchOption};
ghost use Rattle.book.specs.Grammar.{Part};
ghost use Rattle.lines.specs.Fits.{multiplies, adds};
ghost use Rattle.lines.specs.Parts.{Multiplying, Adding};
ghost use Rattle.lines.specs.Parsing.{ReadsPart};

use super::Parser;
use super::single::{expect, take_as, takes};
use expr::code::Code;
use rules::refusal::Refusal;
use tokens::token::{Sign, Token};
use word::numbers::number;

// The code of a sign that joins factors. A function, as `lettering` is.
fn multiplying(by: Sign) -> Option<Code>
    ensures { MatchOption result (multiplies by ≡ false) (λ code. Multiplying by code) }
{
    match by {
        Sign::Times => Some(Code::Multiply),
        Sign::Over => Some(Code::Divide),
        _ => None,
    }
}

// The code of a sign that joins products. It stays apart from `multiplying`: which signs join is what tells a sum from a
// product.
fn adding(by: Sign) -> Option<Code>
    ensures { MatchOption result (adds by ≡ false) (λ code. Adding by code) }
{
    match by {
        Sign::Plus => Some(Code::Add),
        Sign::Minus => Some(Code::Subtract),
        _ => None,
    }
}

impl<'a> Parser<'a> {
    // A number, a name or a sum in parentheses.
    #[cycle(factor_operand_product_sum)]
    fn operand(&mut self) -> Result<(), Refusal>
        ensures { ReadsPart Part.operand result self.old self.new }
    {
        match self.reader.next() {
            Some(Token::Number(digits)) => {
                let n = number(digits).ok_or(Refusal::NotByGrammar)?;
                self.codes.push(Code::Number(n));
                Ok(())
            }
            Some(Token::Name(part)) => {
                self.codes.push(Code::Name(part[0]));
                Ok(())
            }
            Some(Token::Sign(part)) => match Sign::from(part) {
                Sign::Opens => {
                    self.sum()?;
                    expect(&mut self.reader, Sign::Closes)
                }
                _ => Err(Refusal::NotByGrammar),
            },
            None => Err(Refusal::NotByGrammar),
        }
    }

    // An operand, negated behind a minus.
    #[cycle(factor_operand_product_sum)]
    fn factor(&mut self) -> Result<(), Refusal>
        ensures { ReadsPart Part.factor result self.old self.new }
    {
        if takes(&mut self.reader, Sign::Minus) {
            self.operand()?;
            self.codes.push(Code::Negate);
            Ok(())
        } else {
            self.operand()
        }
    }

    // Factors joined by `*` or `/`. `sum` joins products in the same way; the two stay apart, since one calls the other, as in
    // the grammar.
    #[cycle(factor_operand_product_sum)]
    fn product(&mut self) -> Result<(), Refusal>
        ensures { ReadsPart Part.product result self.old self.new }
    {
        self.factor()?;
        while let Some(code) = take_as(&mut self.reader, multiplying) {
            self.factor()?;
            self.codes.push(code);
        }
        Ok(())
    }

    // Products joined by `+` or `-`.
    #[cycle(factor_operand_product_sum)]
    pub(super) fn sum(&mut self) -> Result<(), Refusal>
        ensures { ReadsPart Part.sum result self.old self.new }
    {
        self.product()?;
        while let Some(code) = take_as(&mut self.reader, adding) {
            self.product()?;
            self.codes.push(code);
        }
        Ok(())
    }
}
