// What a plot keeps beside its source.
ghost use Rattle.std.specs.Prelude.{◌≤◌};

use report::ending::Ending;
use walk::walker::Walker;
use word::module::Module;

/// The module that was looked at and not taken, how many were taken, how far the walk has come, and the latest ending that a step
/// answered.
#[derive(Clone, Copy)]
pub struct State {
    pub(crate) held: Option<Module>,
    pub(crate) taken: u32,
    pub(crate) walker: Walker,
    pub(crate) ending: Ending,
    ghost few: { taken ≤ 16_000_000 },
}
