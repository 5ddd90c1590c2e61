// What the turtle draws.
ghost use Rattle.std.specs.Prelude.{◌≤◌};

use super::direction::Direction;
use super::place::Place;

/// A line: its start, its direction, and its length, 1 to 4,095.
#[derive(Clone, Copy, PartialEq, Eq, Debug)]
pub struct Segment {
    pub start: Place,
    pub heading: Direction,
    pub length: u16,
    ghost long: { 1 ≤ length },
    ghost short: { length ≤ 4_095 },
}
