// How far a drawing reaches.
use turtle::place::Place;

/// The box round all segments, by its two corners: the least x, y and z, and the greatest.
#[derive(Clone, Copy, PartialEq, Eq, Debug)]
pub struct Bounds {
    pub least: Place,
    pub greatest: Place,
}
