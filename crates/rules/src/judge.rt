// What may be wrong with a rule by itself.
ghost use Rattle.std.specs.Prelude.{◌≡◌, [], ◌∷◌};
ghost use Rattle.rules.specs.Drafts.{rule_of};
ghost use Rattle.rules.specs.Picked.{numbers_in, names_in};
ghost use Rattle.rules.specs.Refusals.{answer_number};
ghost use Rattle.rules.specs.Wrong.{some_over, some_twice, some_missing, wrong};

use super::draft::Draft;
use super::given::given_names;
use super::nesting::nests;
use super::refusal::Refusal;
use expr::code::Code;

// The largest number in a guard or an argument.
const LARGEST: u32 = 1_000_000;
// The last printed number; the first is 1.
const LAST: u32 = 999;
// The most letters and brackets of a successor.
const MOST: usize = 24;

// Whether a place of code is a number that is too large.
fn is_large(place: Code) -> bool
    ensures { result ≡ some_over (numbers_in (place ∷ [])) }
{
    matches!(place, Code::Number(n) if n > LARGEST)
}

// Whether a number is too large.
fn has_large(code: &[Code]) -> bool
    ensures { result ≡ some_over (numbers_in code.now) }
{
    code.iter().any(|place| is_large(*place))
}

// Whether a name stands twice among some.
fn repeats(names: &[u8]) -> bool
    ensures { result ≡ some_twice names.now }
{
    // A loop: `any` over `enumerate` takes the same slice by the index, and its proof did not close.
    for (i, name) in names.iter().enumerate() {
        if names[i + 1..].contains(name) {
            return true;
        }
    }
    false
}

// Whether a place of code is a name that is not given.
fn is_missing(given: &[u8], place: Code) -> bool
    ensures { result ≡ some_missing given.now (names_in (place ∷ [])) }
{
    match place {
        Code::Name(name) => !given.contains(&name),
        _ => false,
    }
}

// Whether the code has a name that is not given.
fn misses(given: &[u8], code: &[Code]) -> bool
    ensures { result ≡ some_missing given.now (names_in code.now) }
{
    code.iter().any(|place| is_missing(given, *place))
}

impl Draft {
    /// Refuses the rule for the first thing that is wrong with it by itself.
    pub fn judge(&self) -> Result<(), Refusal>
        ensures { answer_number result ≡ wrong (rule_of self.now) 0 }
    {
        let printed = self.head.printed;
        if printed < 1 || printed > LAST {
            return Err(Refusal::PrintedNumber);
        }
        let code = self.codes.as_slice();
        if has_large(code) {
            return Err(Refusal::NumberTooLarge);
        }
        let given = given_names(&self.head);
        let names = given.as_slice();
        if repeats(names) || misses(names, code) {
            return Err(Refusal::Names);
        }
        let pieces = self.pieces.as_slice();
        if !nests(pieces) {
            return Err(Refusal::Nesting);
        }
        if pieces.len() > MOST {
            return Err(Refusal::TooManyModules);
        }
        Ok(())
    }
}
