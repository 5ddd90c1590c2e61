// Takes a line apart.
ghost use Rattle.std.specs.Prelude.{◌≡◌, ◌≤◌, [], length, MatchOption};
ghost use Rattle.std.specs.List.{prefix_len};
ghost use Rattle.std.specs.Iterator.{item_count};
ghost use Rattle.tokens.specs.Tokens.{is_space, is_digit, tokens};
ghost use Rattle.tokens.specs.Readers.{unread, Leads, Takes, Passes, leading, rest};
ghost use Rattle.tokens.specs.Laws.{Laws};

use super::super::signs::makes_pair;
use super::super::token::{Sign, Token};
use super::Reader;

// How many spaces stand first.
#[inline(always)]
fn gap(text: &[u8]) -> usize
    ensures count { result ≡ prefix_len is_space text.now }
    ensures within { result ≤ length text.now }
{
    text.iter().take_while(|b| **b == b' ').count()
}

// How many digits stand first.
fn digits(text: &[u8]) -> usize
    ensures { result ≡ prefix_len is_digit text.now }
{
    text.iter().take_while(|b| b.is_ascii_digit()).count()
}

// The token that stands first, and its length.
#[inline(always)]
fn first(text: &[u8]) -> Option<(Token<'_>, usize)>
    requires { prefix_len is_space text.now ≡ 0 }
    ensures { MatchOption result (text.now ≡ []) (λ first. Leads text.now first.0 first.1) }
{
    match text {
        [] => None,
        [b'0'..=b'9', ..] => {
            let n = digits(text);
            Some((Token::Number(&text[..n]), n))
        }
        [b'a'..=b'z', ..] => Some((Token::Name(&text[..1]), 1)),
        [b, c, ..] if makes_pair(*b, *c) => Some((Token::Sign(&text[..2]), 2)),
        _ => Some((Token::Sign(&text[..1]), 1)),
    }
}

impl<'a> Reader<'a> {
    /// A reader at the start of a line.
    pub fn new(line: &'a [u8]) -> Reader<'a>
        ensures start { result.at ≡ 0 }
        ensures same { result.line.now ≡ line.now }
        ensures whole { unread result ≡ tokens line.now }
        ensures laws { Laws }
    {
        Reader { line, at: 0 }
    }

    /// The sign that the next token is, if it is one.
    #[inline(always)]
    pub fn sign(&self) -> Option<Sign>
        ensures { result ≡ leading (unread self.now) }
    {
        let mut ahead = *self;
        match ahead.next() {
            Some(Token::Sign(part)) => Some(Sign::from(part)),
            _ => None,
        }
    }

    /// Passes over the next token.
    pub fn pass(&mut self)
        ensures whole { unread self.new ≡ rest (unread self.old) }
        ensures passes { Passes self.old self.new }
    {
        let _ = self.next();
    }
}

/// Takes the next token; where only spaces are left, passes over them and answers `None`.
impl<'a> Iterator for Reader<'a> {
    type Item = Token<'a>;

    ghost next_gives = { Takes };

    ghost remaining = { item_count unread };

    #[inline(always)]
    fn next(&mut self) -> Option<Token<'a>> {
        self.at += gap(&self.line[self.at..]);
        let (token, size) = first(&self.line[self.at..])?;
        self.at += size;
        Some(token)
    }
}
