// Where a module stands.
use word::module::Module;

/// A module between its neighbours, of which either may be missing.
#[derive(Clone, Copy)]
pub struct Site {
    pub left: Option<Module>,
    pub module: Module,
    pub right: Option<Module>,
}
