// What every sheet does.
ghost use Rattle.std.specs.Prelude.{◌≡◌, ◌+◌, ◌≤◌};
ghost use Rattle.turtle.specs.Stances.{stroke_of};
ghost use Rattle.sheet.specs.Sheets.{Content, Puts};
ghost use Rattle.sheet.specs.Refusals.{refusal_of};

use turtle::segment::Segment;

/// No sheet takes more segments.
pub const MOST: u32 = 16_000_000;

/// A sheet is full.
// The only refusal of a sheet: an enum of one case, with its number, would be no plainer.
#[derive(Clone, Copy, PartialEq, Eq, Debug)]
pub struct NoSpace;

impl NoSpace {
    /// The number of the refusal.
    pub fn cause(self) -> u8
        ensures { result ≡ refusal_of self }
    {
        50
    }
}

/// Whatever segments are put on.
pub trait Sheet {
    // the space left, and the number, the length in all and the latest of the segments put so far
    ghost means: { Self → Content };

    /// Puts a segment on the sheet, if there is space for one more.
    fn put(&mut self, segment: Segment) -> Result<(), NoSpace>
        ensures puts { Puts (means self.old) (stroke_of segment) result (means self.new) };

    /// For how many more segments there is space.
    fn space(&self) -> u32
        ensures { result ≡ (means self.now).space };

    ghost few: { (s : Self) → (means s).count + (means s).space ≤ 16_000_000 };
}
