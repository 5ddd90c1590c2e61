// Why a line is not taken.
ghost use Rattle.std.specs.Prelude.{◌≡◌};
ghost use Rattle.rules.specs.Refusals.{refusal_number};

/// Why a line is not taken into a book.
#[derive(Clone, Copy, PartialEq, Eq, Debug)]
pub enum Refusal {
    /// Over 200 bytes.
    TooLong = 1,
    /// Not by the grammar.
    NotByGrammar = 2,
    /// The printed number is not 1 to 999.
    PrintedNumber = 3,
    /// A number in a guard or an argument is over 1,000,000.
    NumberTooLarge = 4,
    /// A name is given twice, or used and not given.
    Names = 5,
    /// The brackets of the successor are not nested.
    Nesting = 6,
    /// The successor has over 24 modules, brackets counted.
    TooManyModules = 7,
    /// The book has a rule of this printed number.
    NumberHeld = 11,
    /// The book has 48 rules.
    TooManyRules = 12,
    /// The book would have over 1,024 code places.
    TooMuchCode = 13,
}

impl Refusal {
    /// The number of the refusal.
    pub fn number(self) -> u8
        ensures { result ≡ refusal_number self }
    {
        self as u8
    }
}
