ghost use Rattle.std.specs.Prelude.{◌≡◌, ◌<◌, length, drop};
ghost use Rattle.job.specs.Jobs.{lines_of, line_after, numbered};
ghost use Rattle.std.specs.Iterator.{YieldsFirstBy, item_count};
ghost use Rattle.job.specs.Reading.{line_is, to_come};

use super::{Line, Lines};
use word::bytes::find;

// The first line of a text, and what stands after its LF.
pub(crate) fn cut_line(text: &[u8]) -> (&[u8], &[u8])
    ensures first { result.0.now ≡ line_after 0 text.now }
    ensures others { lines_of result.1.now ≡ drop 1 (lines_of text.now) }
    ensures shorter { 0 < length text.now → length result.1.now < length text.now }
{
    match find(text, b'\n') {
        Some(end) => (&text[..end], &text[end + 1..]),
        None => (text, &[]),
    }
}

impl<'a> Lines<'a> {
    /// The lines of the book of a job, which begins with the third line of the job.
    pub fn of_book(book: &'a [u8]) -> Lines<'a>
        ensures { to_come result ≡ numbered 3 (lines_of book.now) }
    {
        Lines {
            rest: book,
            number: 3,
        }
    }
}

/// The lines still to come that are not empty.
impl<'a> Iterator for Lines<'a> {
    type Item = Line<'a>;

    ghost next_gives = { YieldsFirstBy line_is to_come };

    ghost remaining = { item_count to_come };

    fn next(&mut self) -> Option<Line<'a>> {
        while !self.rest.is_empty() {
            let number = self.number;
            let (text, rest) = cut_line(self.rest);
            self.rest = rest;
            self.number = number + 1;
            if !text.is_empty() {
                return Some(Line { number, text });
            }
        }
        None
    }
}
