// The order in which rules are tried.
ghost use Rattle.std.specs.Prelude.{◌≡◌};
ghost use Rattle.books.specs.Order.{head_rank, head_precedes, spot, numbered};

use super::Rule;
use rules::head::Head;

// Both sides, left only, right only, none: a number, as the order of rules in a book is said by numbers.
fn rank(head: &Head) -> u8
    ensures { result ≡ head_rank head.now }
{
    match (head.before, head.behind) {
        (Some(_), Some(_)) => 0,
        (Some(_), None) => 1,
        (None, Some(_)) => 2,
        (None, None) => 3,
    }
}

// Whether the rule of one head is tried before that of another.
fn precedes(head: &Head, other: &Head) -> bool
    ensures { result ≡ head_precedes head.now other.now }
{
    (rank(head), head.printed) < (rank(other), other.printed)
}

// Where a rule of this head belongs among some rules.
pub(crate) fn spot(head: &Head, rules: &[Rule]) -> usize
    ensures { result ≡ spot head.now rules.now }
{
    rules
        .iter()
        .position(|rule| precedes(head, &rule.head))
        .unwrap_or(rules.len())
}

// Whether one of some rules has this printed number.
pub(crate) fn is_numbered(number: u32, rules: &[Rule]) -> bool
    ensures { result ≡ numbered number rules.now }
{
    rules.iter().any(|rule| number == rule.head.printed)
}
