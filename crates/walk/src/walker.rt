// Where a walk has come to.
ghost use Rattle.std.specs.Prelude.{◌*◌, ◌≤◌, length};
ghost use Rattle.rows.specs.Rows.{held};

use report::bounds::Bounds;
use rows::row::Row;
use turtle::pose::Pose;

pub mod take;

/// Where the turtle stands, the poses stored, the latest last, how many segments were drawn so far, how long they are in all, the
/// box around them, and the most brackets that were ever open.
#[derive(Clone, Copy)]
pub struct Walker {
    pose: Pose,
    stored: Row<Pose, 32>,
    segments: u32,
    distance: u64,
    bounds: Option<Bounds>,
    deepest: u8,
    ghost few: { segments ≤ 16_000_000 },
    ghost short: { distance ≤ 4_095 * segments },
    ghost deep: { length (held stored) ≤ deepest },
}
