// Numbers in text.
ghost use Rattle.std.specs.Prelude.{◌≡◌, ◌<◌, ◌≤◌, ◌&&◌, true, length, nat_le, IfSome};
ghost use Rattle.std.specs.Char.{is_ascii_digit};
ghost use Rattle.std.specs.List.{list_all};
ghost use Rattle.std.specs.Str.{all_ascii_digits};
ghost use Rattle.word.specs.Text.{number, worth};

// Whether a text is 1 to 7 digits.
fn is_number(text: &[u8]) -> bool
    ensures { result ≡ (nat_le 1 (length text.now) && nat_le (length text.now) 7 && list_all is_ascii_digit text.now) }
{
    1 <= text.len() && text.len() <= 7 && text.iter().all(|b| b.is_ascii_digit())
}

// The number that at most 7 digits write. A loop: by way of `from_utf8` and `parse` a number takes half as long again.
fn value(digits: &[u8]) -> u32
    requires short { length digits.now ≤ 7 }
    requires all { all_ascii_digits digits.now ≡ true }
    ensures value { result ≡ worth digits.now }
    ensures bound { result < 10_000_000 }
{
    let mut n = 0;
    for d in digits {
        n = 10 * n + u32::from(*d - b'0');
    }
    n
}

/// The number that 1 to 7 digits write; none of any other text.
pub fn number(text: &[u8]) -> Option<u32>
    ensures value { result ≡ number text.now }
    ensures bound { IfSome result (λ n. n < 10_000_000) }
{
    if !is_number(text) {
        return None;
    }
    Some(value(text))
}
