// Where the turtle stands.
ghost use Rattle.std.specs.Prelude.{◌<◌};

use super::place::Place;

pub mod act;
mod standing;
mod turned;

/// A place, and an orientation, of which there are 24.
#[derive(Clone, Copy, PartialEq, Eq, Debug)]
pub struct Pose {
    place: Place,
    // A number, since it is what `whereabouts` answers, and the row of the table of turns.
    orientation: u8,
    ghost known: { orientation < 24 },
}
