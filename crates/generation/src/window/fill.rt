ghost use Rattle.std.specs.Prelude.{◌≡◌, [], ◌∷◌, IfSome, MatchOption};
ghost use Rattle.word.specs.Words.{after};
ghost use Rattle.word.specs.Records.{symbol_of};
ghost use Rattle.generation.specs.Windows.{in_window};

use super::Window;
use word::depth::Depth;
use word::module::Module;

impl Window {
    // An empty window where so many brackets are open.
    pub(crate) fn empty(depth: Depth) -> Window
        ensures held { in_window result ≡ [] }
        ensures first { result.first ≡ depth }
        ensures last { result.last ≡ depth }
    {
        Window {
            row: [Module::BLANK; 65],
            start: 0,
            len: 0,
            first: depth,
            last: depth,
        }
    }

    /// The modules that are held.
    #[inline(always)]
    pub fn as_slice(&self) -> &[Module]
        ensures { result.now ≡ in_window self.now }
    {
        &self.row[self.start..self.start + self.len]
    }

    /// The brackets open before the first module.
    #[inline(always)]
    pub fn first(&self) -> Depth
        ensures { result ≡ self.now.first }
    {
        self.first
    }

    // Takes the first module off.
    #[inline(always)]
    pub(crate) fn pop(&mut self) -> Option<Module>
        ensures held { MatchOption result ((in_window self.old ≡ []) × (self.new ≡ self.old)) (λ m. in_window self.old ≡ m ∷ in_window self.new) }
        ensures first { IfSome result (λ m. self.new.first.brackets ≡ after self.old.first.brackets (symbol_of m)) }
        ensures last { self.new.last ≡ self.old.last }
    {
        if self.len == 0 {
            return None;
        }
        let symbol = self.row[self.start];
        self.start += 1;
        self.len -= 1;
        self.first = self.first.after(symbol).unwrap();
        Some(symbol)
    }
}
