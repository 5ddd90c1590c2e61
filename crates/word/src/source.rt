// A source of modules.
ghost use Rattle.std.specs.Prelude.{◌≡◌};
ghost use Rattle.word.specs.Words.{Meaning, Lawful};
ghost use Rattle.word.specs.Records.{Draws, DrawsSome};

use super::depth::Depth;
use super::fault::Fault;
use super::module::Module;

/// Whatever tells a word, one module at a time.
pub trait Source {
    // the word still to come, the brackets open now, the generation number
    ghost means: { Self → Meaning };

    /// The next module, which is then gone; none at a clean end, or the fault that ends the word, again and again.
    fn draw(&mut self) -> Result<Option<Module>, Fault>
        ensures { Draws (means self.old) result (means self.new) };

    /// The next modules, which are then gone, written to the first of some places: how many, at least one where there is a place
    /// and the word has not ended; or the fault that ends the word, again and again.
    fn draw_some(&mut self, places: &mut [Module]) -> Result<usize, Fault>
        ensures { DrawsSome (means self.old) places.old result places.new (means self.new) }
    {
        for count in 0..places.len() {
            match self.draw() {
                Ok(Some(module)) => places[count] = module,
                Ok(None) => return Ok(count),
                // a fault behind other modules is answered by the next draw
                Err(fault) => return if count == 0 { Err(fault) } else { Ok(count) },
            }
        }
        Ok(places.len())
    }

    /// How many brackets are open now.
    fn open_brackets(&self) -> Depth
        ensures { result.brackets ≡ (means self.now).opened };

    /// The number of the generation that tells the word.
    fn generation(&self) -> u8
        ensures { result ≡ (means self.now).generation };

    ghost lawful: { (s : Self) → Lawful (means s) };
}
