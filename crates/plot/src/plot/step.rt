ghost use Rattle.std.specs.Prelude.{◌≡◌};
ghost use Rattle.turtle.specs.Poses.{stance};
ghost use Rattle.plot.specs.Views.{view, New, answer_of, fault_at, Looks};
ghost use Rattle.plot.specs.Law.{Law};
ghost use Rattle.plot.specs.Runs.{reply_of, stepped, stood, reported, Does};

use super::super::state::State;
use super::super::stop::Stop;
use super::Plot;
use report::ending::Ending;
use report::short_buffer::ShortBuffer;
use sheet::sheet::Sheet;
use walk::refusal::Refusal;
use walk::walker::Walker;
use word::fault::Fault;
use word::module::Module;
use word::source::Source;

/// No word has more modules.
pub(super) const MOST: u32 = 16_000_000;

impl<S: Source + Drop> Plot<S> {
    /// A plot at home, with one home pose stored for each open bracket of its source.
    pub fn new(source: S) -> Plot<S>
        ensures new { New (S.Source.means source) (view (S.Source.means result.source) result.inner) }
        ensures law { Law (S.Source.means source) (view (S.Source.means result.source) result.inner) }
    {
        let walker = Walker::new(source.open_brackets());
        Plot {
            source,
            inner: State {
                held: None,
                taken: 0,
                walker,
                ending: Ending::Open,
            },
        }
    }

    // The module that is held, or the next of the source, which is held then.
    #[inline(always)]
    fn look(&mut self) -> Result<Option<Module>, Fault>
        ensures { Looks (view (S.Source.means self.old.source) self.old.inner) result (view (S.Source.means self.new.source) self.new.inner) }
    {
        if self.inner.held.is_none() {
            self.inner.held = self.source.draw()?;
        }
        Ok(self.inner.held)
    }

    // The fault of a limit at the module that is held.
    pub(super) fn broken(&self, cause: u8) -> Fault
        ensures { result ≡ fault_at (view (S.Source.means self.now.source) self.now.inner) cause }
    {
        Fault {
            cause,
            generation: self.source.generation(),
            place: self.inner.taken + 1,
        }
    }

    /// Takes the next module, and puts what it draws on a sheet. Where the word has ended nothing is taken, and the ending is
    /// answered; where the module breaks a limit of the turtle, or the sheet has no space, the module is held, and the next step
    /// looks at it again.
    pub fn step<K: Sheet>(&mut self, sheet: &mut K) -> Result<Option<Module>, Stop>
        ensures { Does (view (S.Source.means self.old.source) self.old.inner) (stepped (K.Sheet.means sheet.old) (answer_of result) (K.Sheet.means sheet.new)) (view (S.Source.means self.new.source) self.new.inner) }
    {
        let next = match self.look() {
            Ok(Some(next)) => next,
            Ok(None) => {
                self.inner.ending = Ending::Clean;
                return Ok(None);
            }
            Err(fault) => {
                self.inner.ending = Ending::Broken(fault);
                return Err(Stop::Fault(fault));
            }
        };
        match self.inner.walker.take(next, sheet) {
            Ok(()) => {
                self.inner.held = None;
                self.inner.taken = (self.inner.taken + 1).min(MOST);
                Ok(Some(next))
            }
            Err(Refusal::NoSpace) => Err(Stop::NoSpace),
            Err(Refusal::Limit(limit)) => {
                let fault = self.broken(limit.cause());
                self.inner.ending = Ending::Broken(fault);
                Err(Stop::Fault(fault))
            }
        }
    }

    /// The position and the number of the orientation.
    pub fn whereabouts(&self) -> ((i32, i32, i32), u8)
        ensures { Does (view (S.Source.means self.now.source) self.now.inner) (stood (stance result.0.0 result.0.1 result.0.2 result.1)) (view (S.Source.means self.now.source) self.now.inner) }
    {
        self.inner.walker.whereabouts()
    }

    /// Writes the report of the walk so far to a buffer of 160 bytes or more, and answers how long it is.
    pub fn report(&self, buffer: &mut [u8]) -> Result<usize, ShortBuffer>
        ensures { Does (view (S.Source.means self.now.source) self.now.inner) (reported buffer.old (reply_of result) buffer.new) (view (S.Source.means self.now.source) self.now.inner) }
    {
        self.inner
            .walker
            .figures(self.inner.taken, self.inner.ending)
            .write(buffer)
    }
}
