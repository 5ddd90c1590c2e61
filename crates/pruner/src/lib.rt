// Pruning, as a layer over any source.
#![tactic(auto)]

ghost use Rattle.std.specs.Prelude.{◌≡◌};
ghost use Rattle.pruner.specs.Pruned.{pruned_meaning, CutBranch, DropsWhatIsCut};
ghost use Rattle.pruner.specs.Streaming.{left_in};
ghost use Rattle.pruner.specs.Lawful.{lawful_in};

use state::State;
use word::depth::Depth;
use word::fault::Fault;
use word::module::Module;
use word::source::Source;

mod state;

/// Tells the word below without what a `%` cuts off: the rest of its branch. The bracket that closes the branch stays.
#[derive(Drop)]
pub struct Pruner<S: Source + Drop> {
    below: S,
    state: State,
    // where modules from below are put to be sifted; whatever it holds, the word to come is the same
    row: [Module; 64],
}

impl<S: Source + Drop> Pruner<S> {
    /// A pruner over a source tells the pruned word of that source.
    pub fn new(below: S) -> Pruner<S>
        ensures { ⟦<Pruner<S> as Source>⟧.means result ≡ pruned_meaning (S.Source.means below) }
    {
        Pruner {
            below,
            state: State::Passing,
            row: [Module::BLANK; 64],
        }
    }
}

impl<S: Source + Drop> Source for Pruner<S> {
    ghost means = { λ s. left_in s.state (S.Source.means s.below) };

    ghost lawful = { λ s. lawful_in s.state _ (S.Source.lawful s.below) };

    fn draw(&mut self) -> Result<Option<Module>, Fault> {
        loop {
            let before = self.below.open_brackets().brackets;
            let Some(module) = self.below.draw()? else {
                return Ok(None);
            };
            // the fewest brackets open around the module
            let lowest = before.min(self.below.open_brackets().brackets);
            let Some(dropping) = self.state.behind_dropped(module, before, lowest) else {
                self.state = State::Passing;
                return Ok(Some(module));
            };
            self.state = dropping;
        }
    }

    fn draw_some(&mut self, places: &mut [Module]) -> Result<usize, Fault> {
        let wanted = places.len().min(64);
        loop {
            let before = self.below.open_brackets();
            let row = &mut self.row[..];
            let count = self.below.draw_some(&mut row[..wanted])?;
            if count == 0 {
                return Ok(0);
            }
            let mut state = self.state;
            let kept = state.sift(before, &row[..count], places);
            self.state = state;
            if kept > 0 {
                return Ok(kept);
            }
        }
    }

    fn open_brackets(&self) -> Depth {
        let below = self.below.open_brackets();
        match self.state {
            State::Passing => below,
            State::Dropping(floor) => Depth {
                brackets: floor.min(below.brackets),
            },
        }
    }

    fn generation(&self) -> u8 {
        self.below.generation()
    }
}

/// The positions that are dropped are exactly those that a `%` cuts off.
pub fn drops_what_is_cut()
    ensures { DropsWhatIsCut }
{}

/// A[B%C[D]E]F is pruned to A[B]F.
pub fn cut_branch_stands()
    ensures { CutBranch }
{}
