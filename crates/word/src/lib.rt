// Words of modules, told one module at a time: the vocabulary of every crate.
#![tactic(auto)]

pub mod bytes;
pub mod depth;
pub mod fault;
pub mod letters;
pub mod module;
pub mod numbers;
pub mod source;
