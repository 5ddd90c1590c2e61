// Values, and the faults in their place.
ghost use Rattle.std.specs.Prelude.{◌≡◌};
ghost use Rattle.expr.specs.Values.{ranged, negated, divided, compared, judged};
ghost use Rattle.expr.specs.Records.{value_of, verdict_of, cause_number};
ghost use Rattle.expr.specs.Machine.{binary};

use super::code::{Code, Relation};
use word::letters::in_range;

/// Why an expression has no value.
#[derive(Clone, Copy, PartialEq, Eq, Debug)]
pub enum Cause {
    DividedByZero = 31,
    OutOfRange = 32,
}

impl Cause {
    /// The number of the fault.
    pub fn number(self) -> u8
        ensures { result ≡ cause_number self }
    {
        self as u8
    }
}

// A number that lies in the range, or a fault.
#[inline(always)]
pub fn ranged(n: i64) -> Result<i32, Cause>
    ensures { value_of result ≡ ranged n }
{
    match i32::try_from(n) {
        Ok(n) if in_range(n) => Ok(n),
        _ => Err(Cause::OutOfRange),
    }
}

#[inline(always)]
pub fn negated(x: Result<i32, Cause>) -> Result<i32, Cause>
    ensures { value_of result ≡ negated (value_of x) }
{
    ranged(-i64::from(x?))
}

// A quotient, rounded toward zero.
#[inline(always)]
fn divided(x: i32, y: i32) -> Result<i32, Cause>
    ensures { value_of result ≡ divided x y }
{
    if y == 0 {
        return Err(Cause::DividedByZero);
    }
    ranged(i64::from(x) / i64::from(y))
}

// Two operands and the sign between them; a place of code that is no such sign keeps the first.
#[inline(always)]
pub fn joined(sign: Code, x: Result<i32, Cause>, y: Result<i32, Cause>) -> Result<i32, Cause>
    ensures { value_of result ≡ binary sign (value_of x) (value_of y) }
{
    match sign {
        Code::Add => ranged(i64::from(x?) + i64::from(y?)),
        Code::Subtract => ranged(i64::from(x?) - i64::from(y?)),
        Code::Multiply => ranged(i64::from(x?) * i64::from(y?)),
        Code::Divide => divided(x?, y?),
        _ => x,
    }
}

// Whether two numbers are in a relation.
#[inline(always)]
pub fn compared(relation: Relation, x: i32, y: i32) -> bool
    ensures { result ≡ compared relation x y }
{
    match relation {
        Relation::Less => x < y,
        Relation::AtMost => x <= y,
        Relation::Equal => x == y,
        Relation::Unequal => x != y,
        Relation::AtLeast => x >= y,
        Relation::More => x > y,
    }
}

// What a comparison of two values comes to.
#[inline(always)]
pub fn judge(
    relation: Relation,
    x: Result<i32, Cause>,
    y: Result<i32, Cause>,
) -> Result<bool, Cause>
    ensures { verdict_of result ≡ judged relation (value_of x) (value_of y) }
{
    Ok(compared(relation, x?, y?))
}
