// A row of values that may be copied may be copied itself.
ghost use Rattle.std.specs.Prelude.{◌≡◌, ⊤};

use super::Row;
use std::alloc::AllocError;

impl<T: Copy, const N: usize> Clone for Row<T, N> {
    ghost is_clone = { λ x y. y ≡ x };

    ghost is_infallible = { λ _. ⊤ };

    fn clone(&self) -> Result<Row<T, N>, AllocError> {
        Ok(*self)
    }
}
