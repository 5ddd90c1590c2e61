// A plot on a pile of both layers.
ghost use Rattle.std.specs.Prelude.{ℕ, List, [], ◌∷◌};
ghost use Rattle.books.specs.Kinds.{closed_book};
ghost use Rattle.plot.specs.Views.{View, view};
ghost use Rattle.plot.specs.Runs.{Event, Run};
ghost use Rattle.plot.specs.Piles.{grows, prunes, Took, piled};
ghost use Rattle.plot.specs.Law.{After};

use super::plot::Plot;
use books::closed_book::ClosedBook;
use generation::layer::Generation;
use pruner::Pruner;
use word::source::Source;

/// A plot on a pruner on a generation on a pruner on any source. What the law says of it, with the layers written out: whatever
/// lines the book took, and after every list of calls.
pub fn plot_on_both<S: Source + Drop>(
    source: S,
    book: ClosedBook,
) -> Plot<Pruner<Generation<Pruner<S>>>>
    ensures { (lines : List (List ℕ)) → Took lines (closed_book book) → (es : List Event) (v : View) → Run (view (⟦<Pruner<Generation<Pruner<S>>> as Source>⟧.means result.source) result.inner) es v → After (piled (S.Source.means source) (prunes ∷ grows lines (closed_book book) ∷ prunes ∷ [])) es v }
{
    Plot::new(Pruner::new(Generation::new(Pruner::new(source), book)))
}
