// A row of values.
ghost use Rattle.std.specs.Prelude.{◌≡◌, ◌≤◌, length};

mod compared;
mod copied;
mod filled;

/// Up to `N` values, in the first places of an array.
pub struct Row<T, const N: usize> {
    places: [T; N],
    len: usize,
    ghost wide: { length places ≡ N },
    ghost short: { len ≤ N },
}

impl<T: Copy, const N: usize> Copy for Row<T, N> {}
