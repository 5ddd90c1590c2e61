// A few modules.
use rows::row::Row;
use word::module::Module;

/// Up to 24 modules.
pub type Modules = Row<Module, 24>;
