ghost use Rattle.std.specs.Prelude.{◌≡◌, ◌<◌};
ghost use Rattle.turtle.specs.Stances.{stroke_of};
ghost use Rattle.sheet.specs.Sheets.{blank};
ghost use Rattle.sheet.specs.Tallies.{content, Adds};
ghost use Rattle.std.proofs.Common.{lit≤};
ghost use Rattle.sheet.specs.Space.{stays_few};

use super::super::sheet::{MOST, NoSpace, Sheet};
use super::Tally;
use turtle::segment::Segment;

impl Tally {
    /// A tally of no segment.
    pub fn new() -> Tally
        ensures { content 16_000_000 result ≡ blank 16_000_000 }
    {
        Tally {
            count: 0,
            length: 0,
            latest: None,
        }
    }

    /// How many segments were put.
    #[inline(always)]
    pub fn count(&self) -> u32
        ensures { result ≡ self.now.count }
    {
        self.count
    }

    /// How long they are in all.
    pub fn length(&self) -> u64
        ensures { result ≡ self.now.length }
    {
        self.length
    }

    /// The one that was put last.
    pub fn latest(&self) -> Option<Segment>
        ensures { result ≡ self.now.latest }
    {
        self.latest
    }

    // Counts one more segment.
    #[inline(always)]
    pub(crate) fn add(&mut self, segment: Segment)
        requires { self.old.count < 16_000_000 }
        ensures { Adds self.old (stroke_of segment) self.new }
    {
        self.count += 1;
        self.length += u64::from(segment.length);
        self.latest = Some(segment);
    }
}

impl Sheet for Tally {
    ghost means = { content 16_000_000 };

    ghost few = { λ t. stays_few 16_000_000 t.count (lit≤ tt) t.few };

    #[inline(always)]
    fn put(&mut self, segment: Segment) -> Result<(), NoSpace> {
        if self.space() == 0 {
            return Err(NoSpace);
        }
        self.add(segment);
        Ok(())
    }

    #[inline(always)]
    fn space(&self) -> u32 {
        MOST - self.count
    }
}
