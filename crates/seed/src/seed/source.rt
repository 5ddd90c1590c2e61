ghost use Rattle.std.specs.Prelude.{◌≡◌};
ghost use Rattle.seed.specs.Seeds.{seeded};
ghost use Rattle.seed.specs.Left.{left};
ghost use Rattle.seed.specs.Written.{ReadsBack};
ghost use Rattle.seed.specs.Lawfully.{lawfully};

use super::super::cause::Cause;
use super::super::module::{own_len, read_module};
use super::Seed;
use word::depth::Depth;
use word::fault::Fault;
use word::module::Module;
use word::source::Source;

/// A longer text tells nothing.
pub const LONGEST: usize = 65_536;

impl<'a> Seed<'a> {
    /// The source of a seed text, whatever bytes it has.
    pub fn new(text: &'a [u8]) -> Seed<'a>
        ensures meaning { left result.text.now result.at result.told result.depth.brackets ≡ seeded text.now }
        ensures law { ReadsBack text.now (left result.text.now result.at result.told result.depth.brackets).told }
    {
        Seed {
            text,
            at: 0,
            told: 0,
            depth: Depth::ZERO,
        }
    }
}

impl<'a> Source for Seed<'a> {
    ghost means = { λ s. left s.text.now s.at s.told s.depth.brackets };

    ghost lawful = { λ s. lawfully s.text.now s.at s.told s.depth.brackets s.within s.counted s.depth.shallow };

    fn draw(&mut self) -> Result<Option<Module>, Fault> {
        let text = self.text;
        if text.len() > LONGEST {
            return Err(Cause::TooLong.at(1));
        }
        let place = self.told + 1;
        if self.at == text.len() {
            if self.depth.brackets == 0 {
                return Ok(None);
            }
            return Err(Cause::StillOpen.at(place));
        }
        let rest = &text[self.at..];
        let size = own_len(rest);
        // matched for the reason that `read_module` has
        match read_module(&rest[0..size], self.depth) {
            Ok((module, depth)) => {
                self.at += size;
                self.told += 1;
                self.depth = depth;
                Ok(Some(module))
            }
            Err(cause) => Err(cause.at(place)),
        }
    }

    fn open_brackets(&self) -> Depth {
        self.depth
    }

    fn generation(&self) -> u8 {
        0
    }
}
