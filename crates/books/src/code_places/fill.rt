ghost use Rattle.std.specs.Prelude.{◌≡◌, ◌+◌, ◌≤◌, [], ◌++◌, length, take, drop};
ghost use Rattle.books.specs.Stored.{code_held};

use super::CodePlaces;
use expr::code::Code;

impl CodePlaces {
    pub fn new() -> CodePlaces
        ensures { code_held result ≡ [] }
    {
        CodePlaces {
            row: [Code::Blank; 1024],
            used: 0,
        }
    }

    /// How many places are filled.
    pub fn used(&self) -> usize
        ensures { result ≡ length (code_held self.now) }
    {
        self.used
    }

    // The places from `start` on, `size` of them.
    pub(crate) fn part(&self, start: usize, size: usize) -> &[Code]
        requires { start + size ≤ length (code_held self.now) }
        ensures { result.now ≡ take size (drop start (code_held self.now)) }
    {
        &self.row[start..start + size]
    }

    // More code, right behind what there is.
    pub(crate) fn append(&mut self, code: &[Code])
        requires { length (code_held self.old) + length code.now ≤ 1_024 }
        ensures { code_held self.new ≡ code_held self.old ++ code.now }
    {
        let start = self.used;
        let end = start + code.len();
        self.row[start..end].copy_from_slice(code);
        self.used = end;
    }
}
