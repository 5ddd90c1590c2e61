// A sheet that only counts.
ghost use Rattle.std.specs.Prelude.{◌*◌, ◌≤◌};

use turtle::segment::Segment;

mod counting;

/// The number, the length in all and the latest of the segments put so far.
#[derive(Clone, Copy, PartialEq, Eq, Debug)]
pub struct Tally {
    count: u32,
    length: u64,
    latest: Option<Segment>,
    ghost few: { count ≤ 16_000_000 },
    ghost short: { length ≤ 4_095 * count },
}
