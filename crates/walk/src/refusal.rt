// Why a module is not taken.
ghost use Rattle.std.specs.Prelude.{◌≡◌};

use turtle::act::Limit;

/// Why a module is not taken: the turtle cannot go so far, or the sheet has no space for what it would draw.
#[derive(Clone, Copy, PartialEq, Eq, Debug)]
pub enum Refusal {
    Limit(Limit),
    NoSpace,
}

impl From<Limit> for Refusal {
    ghost use Rattle.walk.specs.declared.refusal.Refusal.{Refusal};

    ghost from_gives = { λ limit refusal. refusal ≡ Refusal.Limit limit };

    #[inline(always)]
    fn from(limit: Limit) -> Refusal {
        Refusal::Limit(limit)
    }
}
