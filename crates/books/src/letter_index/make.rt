ghost use Rattle.std.specs.Prelude.{◌≡◌, ◌+◌, ◌*◌, ◌<◌, ◌≤◌, false, length, slice_index, slice_index_or};
ghost use Rattle.books.specs.Index.{letters, Firsts, Nexts, Tells, Aheads};

use super::super::rule::Rule;
use super::LetterIndex;
use word::module::Module;

// Where a letter with so many parameters stands, with four places for each letter.
#[inline(always)]
fn spot_of(letter: u8, count: usize) -> usize
    requires { count ≤ 3 }
    ensures { result ≡ letter * 4 + count }
{
    usize::from(letter) * 4 + count
}

// For each letter and number of parameters, whether one of some rules for them names a neighbour on the right.
fn looking_ahead(rules: &[Rule]) -> [bool; 1024]
    ensures long { length result ≡ 1_024 }
    ensures tells { Tells rules.now result }
{
    let mut ahead = [false; 1024];
    for rule in rules {
        let spot = spot_of(rule.letter(), rule.parameters());
        ahead[spot] |= rule.looks_right();
    }
    ahead
}

impl LetterIndex {
    // The index of some rules.
    pub(crate) fn new(rules: &[Rule]) -> LetterIndex
        requires { length rules.now ≤ 48 }
        ensures firsts { Firsts (letters rules.now) result }
        ensures nexts { Nexts (letters rules.now) result }
        ensures aheads { Aheads rules.now result }
    {
        // No position needs more than a byte: there are at most 48 rules.
        let none = rules.len() as u8;
        let mut first = [none; 256];
        let mut next = [none; 48];
        // Backward, so that the first rule so far for a letter is the next one behind the rule at hand.
        for at in (0..rules.len()).rev() {
            let letter = usize::from(rules[at].letter());
            next[at] = first[letter];
            first[letter] = at as u8;
        }
        LetterIndex {
            first,
            next,
            ahead: looking_ahead(rules),
        }
    }

    // Where the first rule for a letter stands.
    #[inline(always)]
    pub(crate) fn first(&self, letter: u8) -> usize
        ensures { result ≡ slice_index self.now.first letter }
    {
        usize::from(self.first[usize::from(letter)])
    }

    // Whether a rule for a module's letter and number of parameters names a neighbour on the right.
    #[inline(always)]
    pub(crate) fn looks_ahead(&self, symbol: Module) -> bool
        ensures { result ≡ slice_index_or self.now.ahead (symbol.letter * 4 + symbol.count) false }
    {
        self.ahead[spot_of(symbol.letter, usize::from(symbol.count))]
    }

    // Where the next rule for the same letter stands.
    #[inline(always)]
    pub(crate) fn next(&self, at: usize) -> usize
        requires { at < 48 }
        ensures { result ≡ slice_index self.now.next at }
    {
        usize::from(self.next[at])
    }
}
