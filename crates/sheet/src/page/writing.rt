ghost use Rattle.std.specs.Prelude.{◌≡◌};
ghost use Rattle.turtle.specs.Stances.{stroke_of};
ghost use Rattle.sheet.specs.Pages.{room, page_content, Writes};
ghost use Rattle.sheet.specs.Recording.{Recording};
ghost use Rattle.sheet.specs.Sheets.{blank, Puts};
ghost use Rattle.sheet.specs.Space.{stays_few, room_few};

use super::super::record::{BYTES, write_record};
use super::super::sheet::{MOST, NoSpace, Sheet};
use super::super::tally::Tally;
use super::Page;
use turtle::segment::Segment;

impl<'a> Page<'a> {
    /// A page with no record yet. It holds the buffer as it was lent.
    pub fn new(buffer: &'a mut [u8]) -> Page<'a>
        ensures blank { page_content result ≡ blank (room buffer.old) }
        ensures bytes { result.buffer.now ≡ buffer.old }
        ensures lender { result.buffer.ghost_name ≡ buffer.entry.ghost_name }
        ensures laws { Recording }
    {
        Page {
            buffer,
            tally: Tally::new(),
        }
    }

    /// What was counted so far.
    pub fn tally(&self) -> Tally
        ensures { result ≡ self.now.tally }
    {
        self.tally
    }
}

impl<'a> Sheet for Page<'a> {
    ghost means = { page_content };

    ghost few = { λ p. stays_few (room p.buffer.now) p.tally.count (room_few p.buffer.now) p.tally.few };

    // Beside what any sheet promises: every byte of the buffer, and that it is still the one that was lent.
    fn put(&mut self, segment: Segment) -> Result<(), NoSpace>
        ensures puts { Puts (page_content self.old) (stroke_of segment) result (page_content self.new) }
        ensures bytes { Writes self.old.buffer.now self.old.tally.count (stroke_of segment) result self.new.buffer.now }
        ensures lender { self.new.buffer.ghost_name ≡ self.old.buffer.ghost_name }
    {
        if self.space() == 0 {
            return Err(NoSpace);
        }
        // by `as`, since `usize` is not `From<u32>`
        let at = BYTES * self.tally.count() as usize;
        write_record(self.buffer, at, segment);
        self.tally.add(segment);
        Ok(())
    }

    fn space(&self) -> u32 {
        let records = u32::try_from(self.buffer.len() / BYTES)
            .unwrap_or(MOST)
            .min(MOST);
        records - self.tally.count()
    }
}
