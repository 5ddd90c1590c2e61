// A text of modules that is written out piece by piece.
ghost use Rattle.std.specs.Prelude.{◌≡◌, ◌≤◌, length, IsAscii, take};

mod filled;
mod put;
mod written;

/// So many modules are pushed at once, at most.
pub(crate) const BATCH: usize = 64;

const PLACES: usize = 4096;
// No module is written with more bytes: a letter, two parentheses, two commas and three numbers of 8 bytes.
const LONGEST: usize = 29;

/// Up to 4,096 bytes of text, in the first places of an array.
#[derive(Drop)]
pub(crate) struct Text {
    bytes: [u8; PLACES],
    len: usize,
    ghost wide: { length bytes ≡ 4096 },
    ghost short: { len ≤ 4096 },
    ghost ascii: { IsAscii (take len bytes) },
}
