// The turns of the turtle.

/// The seven turns, by a quarter each, but for `About`, which is by half.
#[derive(Clone, Copy, PartialEq, Eq, Debug)]
pub enum Turn {
    /// `+`
    Left,
    /// `-`
    Right,
    /// `&`
    Down,
    /// `^`
    Up,
    /// `\`
    RollLeft,
    /// `/`
    RollRight,
    /// `|`
    About,
}
