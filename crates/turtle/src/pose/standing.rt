ghost use Rattle.std.specs.Prelude.{◌≡◌};
ghost use Rattle.turtle.specs.Poses.{home, stance};
ghost use Rattle.turtle.specs.Examples.{Deeds};
ghost use Rattle.turtle.specs.Stances.{point_of, stance_of};

use super::super::place::Place;
use super::Pose;

impl Pose {
    /// At the origin, with +y ahead and −x to the left.
    #[tactic(auto, unfolding(crate::specs::Turns::oriented, crate::specs::Turns::reoriented))]
    pub fn home() -> Pose
        ensures start { stance_of result ≡ home }
        ensures examples { Deeds }
    {
        Pose {
            place: Place { x: 0, y: 0, z: 0 },
            orientation: 9,
        }
    }

    /// The same pose, copied number by number: one copy of the whole would wait for the numbers that were just written.
    #[inline(always)]
    pub fn copied(&self) -> Pose
        ensures { stance_of result ≡ stance_of self.now }
    {
        let Place { x, y, z } = self.place;
        Pose {
            place: Place { x, y, z },
            orientation: self.orientation,
        }
    }

    /// The place.
    #[inline(always)]
    pub fn place(&self) -> Place
        ensures { point_of result ≡ (stance_of self.now).place }
    {
        self.place
    }

    /// The coordinates of the place, and the number of the orientation.
    // Plain numbers, by value: so a pose is told outside this crate.
    pub fn whereabouts(&self) -> ((i32, i32, i32), u8)
        ensures { stance result.0.0 result.0.1 result.0.2 result.1 ≡ stance_of self.now }
    {
        let Place { x, y, z } = self.place;
        ((x, y, z), self.orientation)
    }
}
