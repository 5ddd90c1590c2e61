// Where something lies.
ghost use Rattle.std.specs.Prelude.{◌≡◌, ◌<◌, ◌≤◌, ◌+ℤ◌, ◌*ℤ◌, true, unsigned_abs};
ghost use Rattle.turtle.specs.Poses.{in_bounds, all_in_bounds};
ghost use Rattle.turtle.specs.Deeds.{is_length};
ghost use Rattle.turtle.specs.Vectors.{vec, vector};

// How far from the origin it lies, at most, along each axis.
const FARTHEST: i32 = 30000;

// The unit vectors of the directions, in the order of their numbers.
const VECTORS: [[i32; 3]; 6] = [
    [1, 0, 0],
    [-1, 0, 0],
    [0, 1, 0],
    [0, -1, 0],
    [0, 0, 1],
    [0, 0, -1],
];

/// A place, each coordinate within ±30,000.
#[derive(Clone, Copy, PartialEq, Eq, Debug)]
pub struct Place {
    pub x: i32,
    pub y: i32,
    pub z: i32,
    ghost near: { all_in_bounds (vec x y z) ≡ true },
}

#[inline(always)]
fn in_bounds(number: i32) -> bool
    ensures { result ≡ in_bounds number }
{
    (-FARTHEST..=FARTHEST).contains(&number)
}

// The unit vector of the direction of this number.
#[inline(always)]
fn unit(vectors: &[[i32; 3]; 6], heading: u8) -> (i32, i32, i32)
    requires table { vectors.now ≡ VECTORS }
    requires known { heading < 6 }
    ensures x { result.0 ≡ (vector heading).x }
    ensures y { result.1 ≡ (vector heading).y }
    ensures z { result.2 ≡ (vector heading).z }
    ensures unit_x { unsigned_abs result.0 ≤ 1 }
    ensures unit_y { unsigned_abs result.1 ≤ 1 }
    ensures unit_z { unsigned_abs result.2 ≤ 1 }
{
    let row = &vectors[usize::from(heading)];
    (row[0], row[1], row[2])
}

// A coordinate, so many lengths further along its axis; the unit is 1, 0 or −1.
#[inline(always)]
fn further(number: i32, length: i32, unit: i32) -> i32
    requires near { in_bounds number ≡ true }
    requires short { is_length length ≡ true }
    requires unit { unsigned_abs unit ≤ 1 }
    ensures { result ≡ number +ℤ length *ℤ unit }
{
    number + length * unit
}

impl Place {
    ghost use Rattle.std.specs.Prelude.{false, MatchOption};
    ghost use Rattle.turtle.specs.Stances.{point_of};

    // The place of these coordinates, if they lie near enough.
    #[inline(always)]
    pub(crate) fn new(x: i32, y: i32, z: i32) -> Option<Place>
        ensures { MatchOption result (all_in_bounds (vec x y z) ≡ false) (λ p. point_of p ≡ vec x y z) }
    {
        if in_bounds(x) && in_bounds(y) && in_bounds(z) {
            Some(Place { x, y, z })
        } else {
            None
        }
    }

    // The coordinates at this length from here, along the direction of this number, which may lie too far out for a place.
    #[inline(always)]
    pub(crate) fn ahead(self, heading: u8, length: i32) -> (i32, i32, i32)
        requires known { heading < 6 }
        requires short { is_length length ≡ true }
        ensures x { result.0 ≡ self.x +ℤ length *ℤ (vector heading).x }
        ensures y { result.1 ≡ self.y +ℤ length *ℤ (vector heading).y }
        ensures z { result.2 ≡ self.z +ℤ length *ℤ (vector heading).z }
    {
        let Place { x, y, z } = self;
        let (across, along, up) = unit(&VECTORS, heading);
        (
            further(x, length, across),
            further(y, length, along),
            further(z, length, up),
        )
    }
}
