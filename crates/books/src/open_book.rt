// A book that takes lines.
use super::contents::Contents;

pub mod load;

/// A book that takes lines; closing makes a book of it that grows.
#[derive(Drop)]
pub struct OpenBook {
    contents: Contents,
}
