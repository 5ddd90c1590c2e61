// A plot that is stepped until a step takes no module.
ghost use Rattle.std.specs.Prelude.{◌≡◌, ◌+◌, ◌≤◌, min};
ghost use Rattle.std.specs.Option.{option_map};
ghost use Rattle.word.specs.Records.{symbol_of};
ghost use Rattle.plot.specs.Views.{view};
ghost use Rattle.plot.specs.ToTheEnd.{Runs, Refuses};

use super::super::stop::Stop;
use super::Plot;
use super::step::MOST;
use report::ending::Ending;
use sheet::sheet::Sheet;
use walk::refusal::Refusal;
use word::module::Module;
use word::source::Source;

// The number of modules taken, one more taken.
#[inline(always)]
fn counted(taken: u32) -> u32
    requires { taken ≤ 16_000_000 }
    ensures { result ≡ min (taken + 1) 16_000_000 }
{
    if taken < MOST { taken + 1 } else { taken }
}

impl<S: Source + Drop> Plot<S> {
    /// Steps until the word has ended clean, and else answers what stopped it.
    pub fn run<K: Sheet>(&mut self, sheet: &mut K) -> Result<(), Stop>
        ensures { Runs (view (S.Source.means self.old.source) self.old.inner) (K.Sheet.means sheet.old) result (K.Sheet.means sheet.new) (view (S.Source.means self.new.source) self.new.inner) }
    {
        // the first step takes what is held, so that from then on all comes from the source
        match self.step(sheet) {
            Ok(Some(_)) => self.follow(sheet),
            Ok(None) => Ok(()),
            Err(stop) => Err(stop),
        }
    }

    // The same, where nothing is held: the next module and the number of those taken are kept in hand until the run stops.
    fn follow<K: Sheet>(&mut self, sheet: &mut K) -> Result<(), Stop>
        requires { option_map symbol_of self.old.inner.held ≡ None }
        ensures { Runs (view (S.Source.means self.old.source) self.old.inner) (K.Sheet.means sheet.old) result (K.Sheet.means sheet.new) (view (S.Source.means self.new.source) self.new.inner) }
    {
        let mut taken = self.inner.taken;
        loop {
            let next = match self.source.draw() {
                Ok(Some(next)) => next,
                Ok(None) => {
                    self.inner.taken = taken;
                    self.inner.ending = Ending::Clean;
                    return Ok(());
                }
                Err(fault) => {
                    self.inner.taken = taken;
                    self.inner.ending = Ending::Broken(fault);
                    return Err(Stop::Fault(fault));
                }
            };
            if let Err(refusal) = self.inner.walker.take(next, sheet) {
                return Err(self.refused(next, taken, refusal));
            }
            taken = counted(taken);
        }
    }

    // Holds a module that is refused behind so many others; what stops the plot.
    fn refused(&mut self, next: Module, taken: u32, refusal: Refusal) -> Stop
        requires { taken ≤ 16_000_000 }
        ensures { Refuses (view (S.Source.means self.old.source) self.old.inner) (symbol_of next) taken refusal result (view (S.Source.means self.new.source) self.new.inner) }
    {
        self.inner.held = Some(next);
        self.inner.taken = taken;
        match refusal {
            Refusal::NoSpace => Stop::NoSpace,
            Refusal::Limit(limit) => {
                let fault = self.broken(limit.cause());
                self.inner.ending = Ending::Broken(fault);
                Stop::Fault(fault)
            }
        }
    }
}
