// The box around places.
ghost use Rattle.std.specs.Prelude.{◌≡◌};
ghost use Rattle.std.specs.Option.{option_map};
ghost use Rattle.turtle.specs.Stances.{point_of};
ghost use Rattle.report.specs.Boxes.{box_of};
ghost use Rattle.walk.specs.Boxes.{lesser, greater, around, least_with, greatest_with};

use report::bounds::Bounds;
use turtle::place::Place;

#[inline(always)]
fn lesser(a: i32, b: i32) -> i32
    ensures { result ≡ lesser a b }
{
    if a <= b { a } else { b }
}

#[inline(always)]
fn greater(a: i32, b: i32) -> i32
    ensures { result ≡ greater a b }
{
    if a <= b { b } else { a }
}

// The lesser coordinates of two places.
#[inline(always)]
fn least(a: Place, b: Place) -> Place
    ensures { point_of result ≡ least_with (point_of a) (point_of b) }
{
    Place {
        x: lesser(a.x, b.x),
        y: lesser(a.y, b.y),
        z: lesser(a.z, b.z),
    }
}

// The greater coordinates of two places.
#[inline(always)]
fn greatest(a: Place, b: Place) -> Place
    ensures { point_of result ≡ greatest_with (point_of a) (point_of b) }
{
    Place {
        x: greater(a.x, b.x),
        y: greater(a.y, b.y),
        z: greater(a.z, b.z),
    }
}

// The box around a place, and around all that another box is around.
#[inline(always)]
pub(crate) fn around(bounds: Option<Bounds>, place: Place) -> Bounds
    ensures { box_of result ≡ around (option_map box_of bounds) (point_of place) }
{
    match bounds {
        None => Bounds {
            least: place,
            greatest: place,
        },
        Some(bounds) => Bounds {
            least: least(bounds.least, place),
            greatest: greatest(bounds.greatest, place),
        },
    }
}
