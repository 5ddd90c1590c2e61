ghost use Rattle.std.specs.Prelude.{◌≡◌, ◌↔◌, [], IsTrue, OnOk, OnErr};
ghost use Rattle.std.specs.Fmt.{WritesOnOk};
ghost use Rattle.text.specs.Texts.{held, HasRoom, Passes};

use super::{BATCH, LONGEST, PLACES, Text};
use std::{fmt, str};

impl Text {
    // Whether 64 modules more have room, whatever they are.
    #[inline(always)]
    fn has_room(&self) -> bool
        ensures { IsTrue result ↔ HasRoom self.now }
    {
        self.len <= PLACES - BATCH * LONGEST
    }

    /// Sees that 64 modules more have room: where they have none, the text is written out.
    #[inline(always)]
    pub(crate) fn make_room<W: fmt::Write>(&mut self, f: &mut fmt::Formatter<W>) -> fmt::Result
        ensures passes { Passes W.Write.write_str_gives f.old result (held self.old) (held self.new) f.new }
        ensures room { OnOk result (HasRoom self.new) }
        ensures kept { OnErr result (held self.new ≡ held self.old) }
    {
        if self.has_room() {
            return Ok(());
        }
        self.flush(f)
    }

    /// Writes the text out, which is empty then. Where it cannot be written, it stays.
    #[inline(never)]
    pub(crate) fn flush<W: fmt::Write>(&mut self, f: &mut fmt::Formatter<W>) -> fmt::Result
        ensures writes { WritesOnOk W.Write.write_str_gives f.old result (held self.old) f.new }
        ensures empty { OnOk result (held self.new ≡ []) }
        ensures kept { OnErr result (held self.new ≡ held self.old) }
    {
        let text = str::from_utf8(&self.bytes[..self.len]).unwrap();
        f.write_str(text)?;
        self.len = 0;
        Ok(())
    }
}
