// Reading the lines of a book.
#![tactic(auto)]

pub mod letters;
pub mod line;
mod parser;
pub mod read;
