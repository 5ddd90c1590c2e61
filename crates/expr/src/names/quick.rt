// Code worked out on plain numbers, until something faults.
ghost use Rattle.std.specs.Prelude.{◌≡◌, ◌+◌, ◌<◌, ◌≤◌, length, [], take};
ghost use Rattle.expr.specs.Records.{env_of, numbers, on_stack};
ghost use Rattle.expr.specs.Quick.{signed, related, quick_step, quick, answered, left_by, reached, counted, Few};

use super::super::code::{Code, Relation};
use super::super::computed::{Cause, compared, joined, negated, ranged};
use super::super::stack::Stack;
use super::Names;
use super::work::first_places;

/// Where plain numbers get to: a latest number, and how many there are; or a comparison that is false; or none where something
/// faults or an operand is missing.
#[derive(Clone, Copy)]
pub(crate) enum Progress {
    On(i32, usize),
    Untrue,
    GivenUp,
}

// So many numbers, the latest of which is a value; given up where it is a fault.
#[inline(always)]
fn counted(value: Result<i32, Cause>, len: usize) -> Progress
    ensures { result ≡ counted value len }
{
    match value {
        Ok(last) => Progress::On(last, len),
        Err(_) => Progress::GivenUp,
    }
}

// The two latest numbers and the sign between them.
#[inline(always)]
fn signed(sign: Code, below: &[i32; 200], last: i32, len: usize) -> Progress
    requires { len ≤ 200 }
    ensures answer { reached result below.now ≡ signed sign (numbers last below.now len) }
    ensures few { Few len result }
{
    if len < 2 {
        return Progress::GivenUp;
    }
    let first = below[len - 1];
    counted(joined(sign, Ok(first), Ok(last)), len - 1)
}

// The two latest numbers and the relation between them.
#[inline(always)]
fn related(relation: Relation, below: &[i32; 200], last: i32, len: usize) -> Progress
    requires { len ≤ 200 }
    ensures answer { reached result below.now ≡ related relation (numbers last below.now len) }
    ensures few { Few len result }
{
    if len < 2 {
        return Progress::GivenUp;
    }
    let first = below[len - 1];
    if !compared(relation, first, last) {
        return Progress::Untrue;
    }
    let left = below[len - 2];
    Progress::On(left, len - 2)
}

impl Names {
    // One place of code, with the latest of `len` numbers and those below it. Each sign has an arm of its own, so that it is told once.
    #[inline(always)]
    fn go(&self, place: Code, below: &mut [i32; 200], last: i32, len: usize) -> Progress
        requires { len < 200 }
        ensures answer { reached result below.new ≡ quick_step (env_of self.now) (numbers last below.old len) place }
        ensures few { Few (len + 1) result }
        ensures wide { length below.new ≡ length below.old }
    {
        match place {
            Code::Blank => Progress::On(last, len),
            Code::Number(n) => {
                below[len] = last;
                counted(ranged(i64::from(n)), len + 1)
            }
            Code::Name(x) => {
                below[len] = last;
                counted(ranged(i64::from(self.value(x))), len + 1)
            }
            Code::Negate if len == 0 => Progress::GivenUp,
            Code::Negate => counted(negated(Ok(last)), len),
            Code::Add => signed(Code::Add, below, last, len),
            Code::Subtract => signed(Code::Subtract, below, last, len),
            Code::Multiply => signed(Code::Multiply, below, last, len),
            Code::Divide => signed(Code::Divide, below, last, len),
            Code::Compare(relation) => related(relation, below, last, len),
        }
    }

    // Works code out on plain numbers: whether every comparison is true, or none where something faults or an operand is missing. What
    // is laid out stays on the stack.
    // The latest number and how many there are stay in locals, since what is in memory is read again after each write.
    #[inline(always)]
    pub(crate) fn quick(&self, code: &[Code], stack: &mut Stack) -> Option<bool>
        ensures answer { result ≡ answered (quick (env_of self.now) [] (take 200 code.now)) }
        ensures left { on_stack stack.new ≡ left_by (quick (env_of self.now) [] (take 200 code.now)) }
    {
        stack.len = 0;
        let mut last = 0;
        let mut len = 0;
        let places = first_places(code);
        for place in places {
            match self.go(*place, &mut stack.below, last, len) {
                Progress::On(number, count) => {
                    last = number;
                    len = count;
                }
                Progress::Untrue => return Some(false),
                Progress::GivenUp => return None,
            }
        }
        stack.last = last;
        stack.len = len;
        Some(true)
    }
}
