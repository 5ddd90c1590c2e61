// The directions along the axes.

/// The six directions, by number.
#[derive(Clone, Copy, PartialEq, Eq, Debug)]
pub enum Direction {
    PlusX = 0,
    MinusX = 1,
    PlusY = 2,
    MinusY = 3,
    PlusZ = 4,
    MinusZ = 5,
}
