// Books that take lines.
#![tactic(auto)]

pub mod closed_book;
pub mod code_places;
pub mod contents;
pub mod ignored;
pub mod letter_index;
pub mod modules;
pub mod open_book;
pub mod rule;
pub mod rule_list;
pub mod rules_for;
pub mod site;
