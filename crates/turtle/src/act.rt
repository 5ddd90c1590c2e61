// What a module has the turtle do.
ghost use Rattle.std.specs.Prelude.{◌≡◌};
ghost use Rattle.turtle.specs.Acts.{cause_of};

use super::pose::Pose;
use super::segment::Segment;

/// The turtle goes to a pose, perhaps the one that it has, or draws a segment on the way to one.
#[derive(Clone, Copy, PartialEq, Eq, Debug)]
pub enum Act {
    Goes(Pose),
    Draws(Segment, Pose),
}

/// Why the turtle cannot go ahead: by a length that is not one of 0 to 4,095, or to a place with a coordinate beyond
/// ±30,000.
#[derive(Clone, Copy, PartialEq, Eq, Debug)]
pub enum Limit {
    TooLong = 41,
    OutOfBounds = 42,
}

impl Limit {
    /// The number of the fault.
    pub fn cause(self) -> u8
        ensures { result ≡ cause_of self }
    {
        self as u8
    }
}
