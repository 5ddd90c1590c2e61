// A word, and how it ends, as text.
ghost use Rattle.std.specs.Prelude.{◌≡◌, [], OnOk};
ghost use Rattle.std.specs.Fmt.{WritesOnOk};
ghost use Rattle.text.specs.Told.{told_text};

use super::text::{BATCH, Text};
use std::fmt;
use word::module::Module;
use word::source::Source;

/// Writes the word that a source has still to tell on one line, and how it ends on the next.
pub fn show_word<S: Source, W: fmt::Write>(source: &mut S, f: &mut fmt::Formatter<W>) -> fmt::Result
    ensures text { WritesOnOk W.Write.write_str_gives f.old result (told_text (S.Source.means source.old).told) f.new }
    ensures all { OnOk result ((S.Source.means source.new).told.modules ≡ []) }
{
    let mut places = [Module::BLANK; BATCH];
    let mut text = Text::new();
    loop {
        match source.draw_some(&mut places) {
            Ok(0) => {
                text.flush(f)?;
                return writeln!(f, "\nend clean");
            }
            Ok(count) => {
                text.make_room(f)?;
                text.push_modules(&places[..count]);
            }
            Err(fault) => {
                text.flush(f)?;
                return writeln!(f, "\nend fault {fault}");
            }
        }
    }
}
