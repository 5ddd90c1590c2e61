// Rules as records: forms, code and successors, and what may be wrong with a rule.
#![tactic(auto)]

pub mod codes;
pub mod draft;
mod given;
pub mod head;
pub mod judge;
pub mod nesting;
pub mod piece;
pub mod pieces;
pub mod refusal;
