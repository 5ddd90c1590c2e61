ghost use Rattle.std.specs.Prelude.{◌≡◌, ◌<◌, true};
ghost use Rattle.turtle.specs.Turns.{faces, rotated};
ghost use Rattle.turtle.specs.Laws.{Turning};
ghost use Rattle.turtle.specs.Table.{table_agrees};
ghost use Rattle.turtle.specs.Stances.{stance_of, Turned};

use super::super::turn::Turn;
use super::Pose;

// The orientation after each turn, a row for each orientation before it, its turns in the order of `Turn`.
const TURNS: [[u8; 7]; 24] = [
    [9, 12, 22, 18, 3, 2, 5],
    [13, 8, 19, 23, 2, 3, 4],
    [17, 20, 10, 14, 0, 1, 7],
    [21, 16, 15, 11, 1, 0, 6],
    [8, 13, 18, 22, 6, 7, 1],
    [12, 9, 23, 19, 7, 6, 0],
    [16, 21, 14, 10, 5, 4, 3],
    [20, 17, 11, 15, 4, 5, 2],
    [1, 4, 16, 20, 10, 11, 13],
    [5, 0, 21, 17, 11, 10, 12],
    [19, 22, 6, 2, 9, 8, 15],
    [23, 18, 3, 7, 8, 9, 14],
    [0, 5, 20, 16, 15, 14, 9],
    [4, 1, 17, 21, 14, 15, 8],
    [18, 23, 2, 6, 12, 13, 11],
    [22, 19, 7, 3, 13, 12, 10],
    [3, 6, 12, 8, 19, 18, 21],
    [7, 2, 9, 13, 18, 19, 20],
    [11, 14, 0, 4, 16, 17, 23],
    [15, 10, 5, 1, 17, 16, 22],
    [2, 7, 8, 12, 22, 23, 17],
    [6, 3, 13, 9, 23, 22, 16],
    [10, 15, 4, 0, 21, 20, 19],
    [14, 11, 1, 5, 20, 21, 18],
];

// The orientation after a turn, by a table that agrees with the vector rule.
#[inline(always)]
fn after(table: &[[u8; 7]; 24], orientation: u8, turn: Turn) -> u8
    requires tested { table_agrees 0 table.now ≡ true }
    requires known { orientation < 24 }
    ensures known { result < 24 }
    ensures rule { faces result ≡ rotated turn (faces orientation) }
{
    table[usize::from(orientation)][turn as usize]
}

impl Pose {
    /// The pose after a turn, in the same place.
    pub fn turned(self, turn: Turn) -> Pose
        ensures turned { Turned (stance_of self) turn (stance_of result) }
        ensures laws { Turning }
    {
        Pose {
            place: self.place,
            orientation: after(&TURNS, self.orientation, turn),
        }
    }

    /// Turns in its place.
    #[inline(always)]
    pub fn turn(&mut self, turn: Turn)
        ensures { Turned (stance_of self.old) turn (stance_of self.new) }
    {
        self.orientation = after(&TURNS, self.orientation, turn);
    }
}
