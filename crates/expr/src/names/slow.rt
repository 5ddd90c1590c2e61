// Code worked out on values and faults.
ghost use Rattle.std.specs.Prelude.{◌≡◌, min, [], map, take};
ghost use Rattle.expr.specs.Values.{value, guard, arguments};
ghost use Rattle.expr.specs.Codes.{decoded, comparisons, latest};
ghost use Rattle.expr.specs.Records.{verdict_of, env_of, arguments_of, Spare};
ghost use Rattle.expr.specs.Machine.{held, step, decides, gathered};

use super::super::code::Code;
use super::super::computed::{Cause, joined, judge, negated, ranged};
use super::super::values::Values;
use super::Names;
use super::work::MOST_PLACES;

// Three values, or the first fault: three single numbers, as a module has them.
fn gathered(
    a: Result<i32, Cause>,
    b: Result<i32, Cause>,
    c: Result<i32, Cause>,
) -> Result<(i32, i32, i32), Cause>
    ensures { result ≡ gathered a b c }
{
    Ok((a?, b?, c?))
}

impl Names {
    // One place of code, and what it decides.
    fn step(&self, place: Code, values: &mut Values) -> Result<bool, Cause>
        ensures after { held values.new ≡ step (env_of self.now) (held values.old) place }
        ensures decided { verdict_of result ≡ decides (held values.old) place }
    {
        match place {
            Code::Blank => {}
            Code::Number(n) => values.push(ranged(i64::from(n))),
            Code::Name(x) => values.push(ranged(i64::from(self.value(x)))),
            Code::Negate => {
                let x = values.pop();
                values.push(negated(x));
            }
            Code::Compare(relation) => {
                let y = values.pop();
                let x = values.pop();
                return judge(relation, x, y);
            }
            sign => {
                let y = values.pop();
                let x = values.pop();
                values.push(joined(sign, x, y));
            }
        }
        Ok(true)
    }

    // What a guard comes to, with its first fault. It is called where a fault is likely, which ends a word, so it stays apart from the
    // quick way.
    #[inline(never)]
    pub(crate) fn guard_slowly(&self, code: &[Code]) -> Result<bool, Cause>
        ensures { verdict_of result ≡ guard (env_of self.now) (comparisons [] (take 200 code.now)) }
    {
        let mut values = Values::new();
        for place in code.iter().take(MOST_PLACES) {
            if !self.step(*place, &mut values)? {
                return Ok(false);
            }
        }
        Ok(true)
    }

    // The values as code leaves them. A guard stops where it is decided, which its meaning needs; arguments go through all of
    // their code, so the two loops are two.
    fn work(&self, code: &[Code]) -> Values
        ensures { held result ≡ map (value (env_of self.now)) (decoded [] (take 200 code.now)) }
    {
        let mut values = Values::new();
        for place in code.iter().take(MOST_PLACES) {
            let _ = self.step(*place, &mut values);
        }
        values
    }

    // The values of up to 3 arguments, or the first fault.
    #[inline(never)]
    pub(crate) fn arguments_slowly(
        &self,
        code: &[Code],
        count: u8,
    ) -> Result<(i32, i32, i32), Cause>
        ensures values { arguments_of (min count 3) result ≡ arguments (env_of self.now) (latest (min count 3) (decoded [] (take 200 code.now))) }
        ensures spare { Spare count result }
    {
        let mut values = self.work(code);
        match count {
            0 => gathered(Ok(0), Ok(0), Ok(0)),
            1 => {
                let a = values.pop();
                gathered(a, Ok(0), Ok(0))
            }
            2 => {
                let b = values.pop();
                let a = values.pop();
                gathered(a, b, Ok(0))
            }
            _ => {
                let c = values.pop();
                let b = values.pop();
                let a = values.pop();
                gathered(a, b, c)
            }
        }
    }
}
