// Generations of a seed, with a pruner on top.
ghost use Rattle.std.specs.Prelude.{◌≡◌};
ghost use Rattle.books.specs.Kinds.{closed_book};
ghost use Rattle.seed.specs.Seeds.{seeded};
ghost use Rattle.pile.specs.Piles.{piled};

use books::closed_book::ClosedBook;
use generation::generations::Generations;
use pruner::Pruner;
use seed::seed::Seed;
use word::source::Source;

/// What a pruner leaves of up to eight generations of a seed.
pub type Pile<'a> = Pruner<Generations<Seed<'a>>>;

/// The word of a seed text, rewritten so many times by a book, 8 at most, and pruned.
pub fn pile_of<'a>(generations: u8, seed: &'a [u8], book: ClosedBook) -> Pile<'a>
    ensures { ⟦<Pile<'a> as Source>⟧.means result ≡ piled generations (closed_book book) (seeded seed.now) }
{
    Pruner::new(Generations::new(Seed::new(seed), book, generations))
}
