// The signs.
ghost use Rattle.std.specs.Prelude.{◌≡◌};
ghost use Rattle.tokens.specs.Tokens.{letter_only, pairs, paired, lone, sign_of};

use super::token::Sign;

// Whether a byte is a letter and nothing else.
fn letter_only(byte: u8) -> bool
    ensures { result ≡ letter_only byte }
{
    matches!(byte, b'A'..=b'Z' | b'^' | b'\\' | b'|' | b'%')
}

/// Whether two bytes are one sign.
pub(super) fn makes_pair(b: u8, c: u8) -> bool
    ensures { result ≡ pairs b c }
{
    b == b'-' && c == b'>' || c == b'=' && (b == b'<' || b == b'>' || b == b'!')
}

// The sign that two bytes are.
fn pair_sign(b: u8, c: u8) -> Sign
    ensures { result ≡ paired b c }
{
    match (b, c) {
        (b'-', b'>') => Sign::Arrow,
        (b'<', b'=') => Sign::AtMost,
        (b'>', b'=') => Sign::AtLeast,
        (b'!', b'=') => Sign::Unequal,
        _ => Sign::Stray,
    }
}

// The sign that a byte is by itself.
fn lone_sign(byte: u8) -> Sign
    ensures { result ≡ lone byte }
{
    if letter_only(byte) {
        return Sign::Letter(byte);
    }
    match byte {
        b'+' => Sign::Plus,
        b'-' => Sign::Minus,
        b'*' => Sign::Times,
        b'/' => Sign::Over,
        b'(' => Sign::Opens,
        b')' => Sign::Closes,
        b'<' => Sign::Less,
        b'=' => Sign::Equal,
        b'>' => Sign::More,
        b'&' => Sign::Also,
        b',' => Sign::Comma,
        b':' => Sign::Colon,
        b'?' => Sign::Asks,
        b'~' => Sign::Ignores,
        b'[' => Sign::Branches,
        b']' => Sign::Rejoins,
        _ => Sign::Stray,
    }
}

/// The sign that a token's part is; `Stray` where it is none.
impl From<&[u8]> for Sign {
    ghost from_gives = { λ part sign. sign ≡ sign_of part.now };

    fn from(part: &[u8]) -> Sign {
        match part {
            [b] => lone_sign(*b),
            [b, c] => pair_sign(*b, *c),
            _ => Sign::Stray,
        }
    }
}
