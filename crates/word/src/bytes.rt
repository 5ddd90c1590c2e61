// Bytes in text.
ghost use Rattle.std.specs.Prelude.{◌<◌, length, MatchOption};
ghost use Rattle.word.specs.Text.{First};

/// The index of the first such byte, if there is one.
pub fn find(text: &[u8], byte: u8) -> Option<usize>
    ensures { MatchOption result (First byte text.now (length text.now)) (λ i. First byte text.now i × (i < length text.now)) }
{
    text.iter().position(|b| *b == byte)
}
