// Why a step takes no module.
use word::fault::Fault;

/// Why a step takes no module, but for a clean end: the fault that ends the word, or that of a limit of the turtle; or the sheet
/// has no space.
#[derive(Clone, Copy, PartialEq, Eq, Debug)]
pub enum Stop {
    Fault(Fault),
    NoSpace,
}
