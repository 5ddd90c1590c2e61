ghost use Rattle.std.specs.Prelude.{◌≡◌, ◌≤◌, ◌++◌, [], length, map};
ghost use Rattle.word.specs.Records.{symbol_of};
ghost use Rattle.word.specs.Text.{spelled};
ghost use Rattle.text.specs.Texts.{held, HasRoom};

use super::put::put_modules;
use super::{PLACES, Text};
use word::module::Module;

impl Text {
    /// No text.
    pub(crate) fn new() -> Text
        ensures { held result ≡ [] }
    {
        Text {
            bytes: [0; PLACES],
            len: 0,
        }
    }

    /// Some modules more at the end, in their written form, 64 at most.
    #[inline(always)]
    pub(crate) fn push_modules(&mut self, modules: &[Module])
        requires few { length modules.now ≤ 64 }
        requires room { HasRoom self.old }
        ensures { held self.new ≡ held self.old ++ spelled (map symbol_of modules.now) }
    {
        let at = self.len;
        let end = put_modules(&mut self.bytes, at, modules);
        self.len = end;
    }
}
