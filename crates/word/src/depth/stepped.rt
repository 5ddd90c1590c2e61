ghost use Rattle.std.specs.Prelude.{◌≡◌, true, false, map, MatchOption};
ghost use Rattle.word.specs.Words.{after, may_stand};
ghost use Rattle.word.specs.Records.{symbol_of, Leads};

use super::super::module::Module;
use super::Depth;

impl Depth {
    /// No bracket is open.
    pub const ZERO: Depth = Depth { brackets: 0 };

    /// The brackets open behind a module, if it may stand here: no `]` where none is open, and no `[` where 32 are.
    #[inline(always)]
    pub fn after(self, module: Module) -> Option<Depth>
        ensures { MatchOption result (may_stand self.brackets (symbol_of «module») ≡ false) (λ d. (may_stand self.brackets (symbol_of «module») ≡ true) × (d.brackets ≡ after self.brackets (symbol_of «module»))) }
    {
        match module.letter {
            b'[' if self.brackets == 32 => None,
            b'[' => Some(Depth {
                brackets: self.brackets + 1,
            }),
            b']' if self.brackets == 0 => None,
            b']' => Some(Depth {
                brackets: self.brackets - 1,
            }),
            _ => Some(self),
        }
    }

    /// The brackets open behind some modules, if each may stand in its place.
    pub fn after_all(self, modules: &[Module]) -> Option<Depth>
        ensures { Leads self.brackets (map symbol_of modules.now) result }
    {
        let mut depth = self;
        for module in modules {
            depth = depth.after(*module)?;
        }
        Some(depth)
    }
}
