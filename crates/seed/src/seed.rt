// A text and how far it has been told.
ghost use Rattle.std.specs.Prelude.{◌≡◌, ◌≤◌, length};

pub mod source;

use word::depth::Depth;

/// A seed text as a source of modules, of generation 0.
#[derive(Drop)]
pub struct Seed<'a> {
    // the whole text, beside the place in it: at every draw a text that is too long tells nothing
    text: &'a [u8],
    at: usize,
    told: u32,
    depth: Depth,
    ghost within: { at ≤ length text.now },
    ghost counted: { told ≤ at },
}
