// What a line says.
use super::letters::Letters;
use rules::draft::Draft;

/// A rule, or letters to ignore.
#[derive(Clone, Copy)]
pub enum Line {
    Rule(Draft),
    Ignores(Letters),
}
