// How a plot ends.
use word::fault::Fault;

/// Whether the word was followed to its end, and how it ended.
#[derive(Clone, Copy, PartialEq, Eq, Debug)]
pub enum Ending {
    /// More of the word may follow.
    Open,
    /// The word ended clean.
    Clean,
    /// The word ended in a fault.
    Broken(Fault),
}
