ghost use Rattle.std.specs.Prelude.{◌≡◌, [], pos};
ghost use Rattle.expr.specs.Values.{is};
ghost use Rattle.expr.specs.Codes.{top, below};
ghost use Rattle.expr.specs.Records.{value_of};
ghost use Rattle.expr.specs.Machine.{held, pushed};

use super::super::computed::Cause;
use super::Values;
use rows::row::Row;

impl Values {
    pub fn new() -> Values
        ensures { held result ≡ [] }
    {
        Values {
            values: Row::new(Ok(0)),
        }
    }

    // One value more, unless the row is full.
    pub fn push(&mut self, value: Result<i32, Cause>)
        ensures { held self.new ≡ pushed (value_of value) (held self.old) }
    {
        self.values.push(value);
    }

    // The latest value, which is gone then; 0 where there is none.
    pub fn pop(&mut self) -> Result<i32, Cause>
        ensures value { value_of result ≡ top (is (pos 0)) (held self.old) }
        ensures rest { held self.new ≡ below (held self.old) }
    {
        self.values.pop().unwrap_or(Ok(0))
    }
}
