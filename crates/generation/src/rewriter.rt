// The state of a generation, but for its book and the word below.
ghost use Rattle.std.specs.Prelude.{◌≡◌, ◌≤◌, true, map, length, drop};
ghost use Rattle.word.specs.Records.{symbol_of};
ghost use Rattle.books.specs.Few.{modules_in};
ghost use Rattle.word.specs.Spans.{spans};
ghost use Rattle.generation.specs.Bounds.{bounded};

use super::lefts::Lefts;
use super::window::Window;
use books::modules::Modules;
use expr::stack::Stack;
use word::depth::Depth;
use word::fault::Fault;

pub(crate) mod seek;
pub(crate) mod sifted;
pub mod tell;
pub mod turn;
pub(crate) mod write;

/// The generation number of the word below, the modules read ahead, one left neighbour for each depth, how many
/// modules are in the result, the position of the next module of the word below, what is to be told next, the stack on which
/// expressions are worked out, the brackets open before what is told next, and the fault that ends the result.
// A row and how many of it are told: no row is taken from its front.
#[derive(Clone, Copy)]
pub struct Rewriter {
    pub(crate) generation: u8,
    pub(crate) window: Window,
    lefts: Lefts,
    produced: u32,
    place: u32,
    growth: Modules,
    stack: Stack,
    told: usize,
    pub(crate) opened: Depth,
    pub(crate) fault: Option<Fault>,
    ghost few: { produced ≤ 16_000_000 },
    ghost inside: { place ≤ 16_000_000 },
    ghost counted: { length (drop told (modules_in growth)) ≤ produced },
    ghost joined: { spans opened.brackets (map symbol_of (drop told (modules_in growth))) window.first.brackets ≡ true },
    ghost bounds: { bounded fault ≡ true },
}
