// Books of rules.
#![tactic(auto)]

ghost use Rattle.book.specs.Books.{AnyOrder};
ghost use Rattle.book.specs.Examples.{Examples};
ghost use Rattle.book.specs.Label.{Label};
ghost use Rattle.book.specs.OneMeaning.{OneMeaning};

pub mod form;

/// The same lines in any order make the same book.
pub fn order_is_gone()
    ensures { AnyOrder }
{}

/// Where two rules fit one module, the rule with more neighbours grows; then left before right; then the lower number.
pub fn label_stands()
    ensures { Label }
{}

/// Lines that are spelled alike mean the same, and so do guards and sums.
pub fn one_meaning()
    ensures { OneMeaning }
{}

/// The worked examples stand.
pub fn examples_stand()
    ensures { Examples }
{}
