ghost use Rattle.std.specs.Prelude.{◌≡◌, []};
ghost use Rattle.expr.specs.Records.{on_stack};
ghost use Rattle.expr.specs.Quick.{latest_three};

use super::Stack;

impl Stack {
    /// No number.
    pub fn new() -> Stack
        ensures { on_stack result ≡ [] }
    {
        Stack {
            last: 0,
            below: [0; 200],
            len: 0,
        }
    }

    /// Takes all numbers off.
    #[inline(always)]
    pub fn clear(&mut self)
        ensures { on_stack self.new ≡ [] }
    {
        self.len = 0;
    }

    // The latest numbers, up to 3 of them, in the order in which they were put there, and 0 for what does not count. None where there
    // are fewer.
    #[inline(always)]
    pub(crate) fn latest(&self, count: u8) -> Option<(i32, i32, i32)>
        ensures { result ≡ latest_three count (on_stack self.now) }
    {
        let len = self.len;
        match count {
            0 => Some((0, 0, 0)),
            1 if len >= 1 => Some((self.last, 0, 0)),
            2 if len >= 2 => Some((self.below[len - 1], self.last, 0)),
            1 | 2 => None,
            _ if len >= 3 => Some((self.below[len - 2], self.below[len - 1], self.last)),
            _ => None,
        }
    }
}
