// Why a report is not written.
ghost use Rattle.std.specs.Prelude.{◌≡◌};
ghost use Rattle.report.specs.Refusals.{refusal_of};

/// A buffer of fewer than 160 bytes, which some report would not fit.
// The only refusal of a report: an enum of one case, with its number, would be no plainer.
#[derive(Clone, Copy, PartialEq, Eq, Debug)]
pub struct ShortBuffer;

impl ShortBuffer {
    /// The number of the refusal.
    pub fn number(self) -> u8
        ensures { result ≡ refusal_of self }
    {
        9
    }
}
