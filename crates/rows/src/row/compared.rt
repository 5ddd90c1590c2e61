// Rows are equal where their values are, in order.
ghost use Rattle.std.specs.Cmp.{on_per, on_equiv};
ghost use Rattle.std.specs.Cmp.Lexicographic.{pointwise, lists_per, lists_equiv};
ghost use Rattle.rows.specs.Rows.{held};

use super::Row;
use std::fmt;

impl<T: PartialEq + Copy, const N: usize> PartialEq for Row<T, N> {
    ghost eq = { λ v w. pointwise T.eq (held v) (held w) };

    ghost laws = { on_per held (lists_per T.laws) };

    fn eq(&self, other: &Self) -> bool {
        self.as_slice() == other.as_slice()
    }
}

impl<T: Eq + Copy, const N: usize> Eq for Row<T, N> {
    ghost laws = { on_equiv held (lists_equiv T.Eq.laws) };
}

impl<T: fmt::Debug + Copy, const N: usize> fmt::Debug for Row<T, N> {
    fn fmt<W: fmt::Write>(&self, f: &mut fmt::Formatter<W>) -> fmt::Result {
        f.debug_list().entries(self.as_slice()).finish()
    }
}
