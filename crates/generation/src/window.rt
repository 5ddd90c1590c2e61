// Modules that are read ahead.
ghost use Rattle.std.specs.Prelude.{◌≡◌, ◌+◌, ◌≤◌, true, map, length, take, drop};
ghost use Rattle.word.specs.Records.{symbol_of};
ghost use Rattle.word.specs.Spans.{spans};

use word::depth::Depth;
use word::module::Module;

pub mod fill;
pub mod refill;

/// Up to 65 modules of the word below, and how many brackets are open before the first and behind the last.
#[derive(Clone, Copy)]
pub struct Window {
    // an array in a plain struct, as a rule of the project has it, and taken from its front, which no row does
    row: [Module; 65],
    start: usize,
    len: usize,
    first: Depth,
    last: Depth,
    ghost wide: { length row ≡ 65 },
    ghost within: { start + len ≤ 65 },
    ghost joined: { spans first.brackets (map symbol_of (take len (drop start row))) last.brackets ≡ true },
}
