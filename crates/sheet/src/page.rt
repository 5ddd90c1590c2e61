// A sheet that writes segments down.
ghost use Rattle.std.specs.Prelude.{◌*◌, ◌≤◌, length};

use super::tally::Tally;

mod writing;

/// A buffer with the records of the segments put so far, from its start on, each of 8 bytes, and their tally.
#[derive(Drop)]
pub struct Page<'a> {
    buffer: &'a mut [u8],
    tally: Tally,
    ghost room: { 8 * tally.count ≤ length buffer.now },
}
