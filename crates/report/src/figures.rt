// What a plot counts.
use super::bounds::Bounds;
use super::ending::Ending;

mod writing;

/// The figures of a plot.
#[derive(Clone, Copy, PartialEq, Eq, Debug)]
pub struct Figures {
    /// How many modules were read.
    pub modules: u32,
    /// How many segments were put.
    pub segments: u32,
    /// How long the segments are in all.
    pub length: u64,
    /// How far they reach, where there is one.
    pub bounds: Option<Bounds>,
    /// How many brackets were open at once, at most.
    pub deepest: u8,
    pub ending: Ending,
}
