// Why a generation breaks off.

/// Why a generation breaks off, beside the faults of its expressions, by the number of the fault.
#[derive(Clone, Copy, PartialEq, Eq, Debug)]
pub enum Cause {
    /// None of the next 64 modules settles the right neighbour.
    Unsettled = 30,
    /// Brackets would be open more than 32 deep.
    TooDeep = 33,
    /// The result would pass 16,000,000 modules.
    TooLong = 34,
}
