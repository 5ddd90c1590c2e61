// Code worked out where names stand for values.
ghost use Rattle.std.specs.Prelude.{◌≡◌, min, [], take};
ghost use Rattle.expr.specs.Values.{guard, arguments};
ghost use Rattle.expr.specs.Codes.{decoded, comparisons, latest};
ghost use Rattle.expr.specs.Records.{verdict_of, env_of, arguments_of, Spare, on_stack};

use super::super::code::Code;
use super::super::computed::Cause;
use super::super::stack::Stack;
use super::Names;

// No line has more places of code, and no more are read.
pub(crate) const MOST_PLACES: usize = 200;

// The places of code that are read.
#[inline(always)]
pub(crate) fn first_places(code: &[Code]) -> &[Code]
    ensures { result.now ≡ take 200 code.now }
{
    &code[..code.len().min(MOST_PLACES)]
}

impl Names {
    /// What the guard comes to that the code lays out: whether it is true, or the first fault. No line has more than 200
    /// places of code, and no more are read.
    pub fn guard(&self, code: &[Code], stack: &mut Stack) -> Result<bool, Cause>
        ensures answer { verdict_of result ≡ guard (env_of self.now) (comparisons [] (take 200 code.now)) }
        ensures emptied { on_stack stack.new ≡ [] }
    {
        let answer = self.quick(code, stack);
        stack.clear();
        match answer {
            Some(holds) => Ok(holds),
            None => self.guard_slowly(code),
        }
    }

    /// The values of up to 3 arguments that the code lays out, worked out left to right, or the first fault. What does not
    /// count is 0.
    pub fn arguments(
        &self,
        code: &[Code],
        count: u8,
        stack: &mut Stack,
    ) -> Result<(i32, i32, i32), Cause>
        ensures values { arguments_of (min count 3) result ≡ arguments (env_of self.now) (latest (min count 3) (decoded [] (take 200 code.now))) }
        ensures spare { Spare count result }
        ensures emptied { on_stack stack.new ≡ [] }
    {
        let answer = self.quick(code, stack);
        let numbers = stack.latest(count);
        stack.clear();
        match (answer, numbers) {
            (Some(true), Some(numbers)) => Ok(numbers),
            _ => self.arguments_slowly(code, count),
        }
    }
}
