ghost use Rattle.std.specs.Prelude.{◌≡◌, ℕ, false, ◌||◌};
ghost use Rattle.word.specs.Symbols.{among};
ghost use Rattle.books.specs.Stored.{ignored_in};

use super::Ignored;

impl Ignored {
    pub fn new() -> Ignored
        ensures { (c : ℕ) → ignored_in result c ≡ false }
    {
        Ignored { row: [false; 256] }
    }

    /// Whether a letter is ignored.
    pub fn has(&self, letter: u8) -> bool
        ensures { result ≡ ignored_in self.now letter }
    {
        self.row[usize::from(letter)]
    }

    /// Some letters more.
    pub fn note(&mut self, letters: &[u8])
        ensures { (c : ℕ) → ignored_in self.new c ≡ (among c letters.now || ignored_in self.old c) }
    {
        for letter in letters {
            self.row[usize::from(*letter)] = true;
        }
    }
}
