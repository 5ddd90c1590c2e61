// A line and how far it has been read.
ghost use Rattle.std.specs.Prelude.{◌≤◌, length};

pub mod lex;

/// Reads a line token by token. It keeps the whole line and a place in it, and not only what is left: its contract says at
/// which place of the line each token stands.
#[derive(Clone, Copy)]
pub struct Reader<'a> {
    line: &'a [u8],
    at: usize,
    ghost within: { at ≤ length line.now },
}
