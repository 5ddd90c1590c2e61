// A plot on a source.
use super::state::State;
use word::source::Source;

pub mod run;
pub mod step;

/// Follows the word of a source with the turtle, from home on.
#[derive(Drop)]
pub struct Plot<S: Source + Drop> {
    source: S,
    inner: State,
}
