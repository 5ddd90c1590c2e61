// Which bytes are letters, and which numbers are parameters.
ghost use Rattle.std.specs.Prelude.{◌≡◌};
ghost use Rattle.word.specs.Symbols.{is_letter, is_bracket, in_range};

/// No parameter lies further from 0.
pub const GREATEST: i32 = 1_000_000;

/// Whether a byte is a letter: A–Z, a–z, or one of `+ - & ^ \ / | %`.
pub fn is_letter(byte: u8) -> bool
    ensures { result ≡ is_letter byte }
{
    matches!(byte, b'A'..=b'Z' | b'a'..=b'z' | b'+' | b'-' | b'&' | b'^' | b'\\' | b'/' | b'|' | b'%')
}

/// Whether a byte is `[` or `]`.
pub fn is_bracket(byte: u8) -> bool
    ensures { result ≡ is_bracket byte }
{
    byte == b'[' || byte == b']'
}

/// Whether a number may be a parameter.
pub fn in_range(number: i32) -> bool
    ensures { result ≡ in_range number }
{
    (-GREATEST..=GREATEST).contains(&number)
}
