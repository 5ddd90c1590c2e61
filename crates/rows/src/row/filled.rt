ghost use Rattle.std.specs.Prelude.{◌≡◌, ℕ, [], ◌∷◌, ◌++◌, length, take, MatchOption, if◌then◌else◌, nat_lt};
ghost use Rattle.std.specs.List.{insert};
ghost use Rattle.rows.specs.Rows.{held};

use super::Row;

impl<T: Copy, const N: usize> Row<T, N> {
    /// No value. A place that is free holds a copy of `blank`.
    pub fn new(blank: T) -> Row<T, N>
        ensures { held result ≡ [] }
    {
        Row {
            places: [blank; N],
            len: 0,
        }
    }

    /// How many values there are.
    pub fn len(&self) -> usize
        ensures { result ≡ length (held self.now) }
    {
        self.as_slice().len()
    }

    /// The values.
    pub fn as_slice(&self) -> &[T]
        ensures { result.now ≡ held self.now }
    {
        &self.places[..self.len]
    }

    /// One value more at the end, unless the row is full.
    pub fn push(&mut self, value: T)
        ensures { held self.new ≡ (if nat_lt (length (held self.old)) N then held self.old ++ (value ∷ []) else held self.old) }
    {
        if self.len < N {
            self.places[self.len] = value;
            self.len += 1;
        }
    }

    /// The values of a slice more at the end, as many as there are places for.
    pub fn extend_from_slice(&mut self, values: &[T])
        ensures { held self.new ≡ take N (held self.old ++ values.now) }
    {
        let fitting = values.len().min(N - self.len);
        let places = &mut self.places[..];
        places[self.len..self.len + fitting].copy_from_slice(&values[..fitting]);
        self.len += fitting;
    }

    /// One value more, in front of those from `at` on, unless the row is full.
    pub fn insert(&mut self, at: usize, value: T)
        ensures { held self.new ≡ (if nat_lt (length (held self.old)) N then insert (held self.old) at value else held self.old) }
    {
        if self.len == N {
            return;
        }
        let at = at.min(self.len);
        self.places[self.len] = value;
        self.len += 1;
        self.places[..self.len][at..].rotate_right(1);
    }

    /// Takes all values off.
    pub fn clear(&mut self)
        ensures { held self.new ≡ [] }
    {
        self.len = 0;
    }

    /// Takes the latest value off, if there is one.
    pub fn pop(&mut self) -> Option<T>
        ensures { MatchOption result ((held self.old ≡ []) × (held self.new ≡ [])) (λ x. held self.old ≡ held self.new ++ (x ∷ [])) }
    {
        if self.len == 0 {
            return None;
        }
        self.len -= 1;
        Some(self.places[self.len])
    }
}
