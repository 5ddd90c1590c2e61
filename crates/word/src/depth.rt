// How many brackets are open.
ghost use Rattle.std.specs.Prelude.{◌≤◌};

mod stepped;

/// A number of open brackets, never more than 32.
#[derive(Clone, Copy, PartialEq, Eq, Debug)]
pub struct Depth {
    pub brackets: u8,
    ghost shallow: { brackets ≤ 32 },
}
