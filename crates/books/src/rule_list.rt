// The rules of a book.
use super::rule::Rule;
use rows::row::Row;

/// Up to 48 rules.
pub type RuleList = Row<Rule, 48>;
