// Single tokens.
ghost use Rattle.std.specs.Prelude.{◌≡◌, ◌≤◌, false, [], length, Decides, MatchOption};
ghost use Rattle.tokens.specs.declared.token.Sign.{Sign};
ghost use Rattle.tokens.specs.Readers.{unread};
ghost use Rattle.lines.specs.Fits.{Known, is_letter_sign};
ghost use Rattle.lines.specs.Parts.{Lettering};
ghost use Rattle.lines.specs.Parsing.{TakesSign, TakesAs, ReadsSign, ReadsLetter, ReadsName};

use rules::refusal::Refusal;
use tokens::reader::Reader;
use tokens::token::{Sign, Token};

/// Whether no token is left.
pub(crate) fn ended(reader: &Reader) -> bool
    ensures { Decides result (unread reader.now ≡ []) }
{
    let mut ahead = *reader;
    ahead.next().is_none()
}

/// Takes a sign if it stands next: whether it did.
pub(crate) fn takes(reader: &mut Reader, sign: Sign) -> bool
    requires { Known sign }
    ensures took { TakesSign sign result (unread reader.old) (unread reader.new) }
    ensures onward { length (unread reader.new) ≤ length (unread reader.old) }
{
    let stands = reader.sign() == Some(sign);
    if stands {
        reader.pass();
    }
    stands
}

/// Takes a sign, which has to stand next.
pub(crate) fn expect(reader: &mut Reader, sign: Sign) -> Result<(), Refusal>
    requires { Known sign }
    ensures read { ReadsSign sign result (unread reader.old) (unread reader.new) }
    ensures onward { length (unread reader.new) ≤ length (unread reader.old) }
{
    if takes(reader, sign) {
        Ok(())
    } else {
        Err(Refusal::NotByGrammar)
    }
}

/// Takes the next sign if it has a meaning: which.
pub(crate) fn take_as<T, F: FnOnce(Sign) -> Option<T>>(reader: &mut Reader, meaning: F) -> Option<T>
    requires { (s : Sign) → F.pre meaning s }
    ensures took { TakesAs (F.post meaning) result (unread reader.old) (unread reader.new) }
    ensures onward { length (unread reader.new) ≤ length (unread reader.old) }
{
    let known = reader.sign().and_then(meaning)?;
    reader.pass();
    Some(known)
}

// The letter that a sign is. A function, as `relation`, `adding` and `multiplying` are, and no `TryFrom`: what a sign means to a
// rule is told here, where neither type is of this crate, and `tokens` knows nothing of rules.
fn lettering(sign: Sign) -> Option<u8>
    ensures { MatchOption result (is_letter_sign sign ≡ false) (λ b. Lettering sign b) }
{
    match sign {
        Sign::Letter(c) => Some(c),
        Sign::Plus => Some(b'+'),
        Sign::Minus => Some(b'-'),
        Sign::Also => Some(b'&'),
        Sign::Over => Some(b'/'),
        _ => None,
    }
}

/// A letter.
pub(crate) fn letter(reader: &mut Reader) -> Result<u8, Refusal>
    ensures read { ReadsLetter result reader.old reader.new }
    ensures onward { length (unread reader.new) ≤ length (unread reader.old) }
{
    match reader.next() {
        Some(Token::Name(part)) => Ok(part[0]),
        Some(Token::Sign(part)) => lettering(Sign::from(part)).ok_or(Refusal::NotByGrammar),
        Some(Token::Number(_)) | None => Err(Refusal::NotByGrammar),
    }
}

/// A name.
pub(crate) fn name(reader: &mut Reader) -> Result<u8, Refusal>
    ensures { ReadsName result reader.old reader.new }
{
    let Token::Name(part) = reader.next().ok_or(Refusal::NotByGrammar)? else {
        return Err(Refusal::NotByGrammar);
    };
    Ok(part[0])
}
