ghost use Rattle.std.specs.Prelude.{◌≡◌, ℕ, ◌≤◌, Bool, None};
ghost use Rattle.std.specs.Option.{option_map};
ghost use Rattle.word.specs.Words.{after};
ghost use Rattle.word.specs.Records.{symbol_of};
ghost use Rattle.generation.specs.Stream.{passed};
ghost use Rattle.generation.specs.Tables.{table};

use super::Lefts;
use word::depth::Depth;
use word::letters::is_bracket;
use word::module::Module;

impl Lefts {
    // No neighbour at any depth.
    pub(crate) fn new() -> Lefts
        ensures { table result ≡ (λ e. None) }
    {
        Lefts { row: [None; 33] }
    }

    // The left neighbour at a depth.
    #[inline(always)]
    pub(crate) fn at(&self, depth: Depth) -> Option<Module>
        ensures { option_map symbol_of result ≡ table self.now depth.brackets }
    {
        self.row[usize::from(depth.brackets)]
    }

    // A module at a depth is passed: `[` hands the neighbour on to its branch, a letter that is not ignored is the neighbour now.
    #[inline(always)]
    pub(crate) fn note(&mut self, depth: Depth, symbol: Module, ignored: bool)
        requires { after depth.brackets (symbol_of symbol) ≤ 32 }
        ensures { (some : ℕ → Bool) → some symbol.letter ≡ ignored → table self.new ≡ passed some depth.brackets (symbol_of symbol) (symbol_of symbol) (table self.old) }
    {
        let at = usize::from(depth.brackets);
        if symbol.letter == b'[' {
            self.row[at + 1] = self.row[at];
        } else if !is_bracket(symbol.letter) && !ignored {
            self.row[at] = Some(symbol);
        }
    }
}
