// A rule as a line has it, before a book takes it.
ghost use Rattle.std.specs.Prelude.{◌≡◌, ◌+◌, ◌≤◌, length};
ghost use Rattle.rules.specs.Layout.{rule_code};
ghost use Rattle.rules.specs.Records.{rule_from, code_in, pieces_in, places_in};

use super::codes::Codes;
use super::head::Head;
use super::pieces::Pieces;

/// The head of a rule, its code and its successor. The first `guard` places of the code are the guard's, and all of it lays
/// out just that rule.
#[derive(Clone, Copy)]
pub struct Draft {
    pub head: Head,
    pub guard: u8,
    pub codes: Codes,
    pub pieces: Pieces,
    ghost whole: { rule_code (rule_from head guard (pieces_in pieces) (code_in codes)) ≡ code_in codes },
    ghost few: { guard ≤ 200 },
    ghost within: { guard + places_in (pieces_in pieces) ≤ length (code_in codes) },
}
