ghost use Rattle.std.specs.Prelude.{◌≡◌, []};
ghost use Rattle.std.specs.Option.{option_map};
ghost use Rattle.word.specs.Records.{symbol_of};
ghost use Rattle.expr.specs.Records.{on_stack};
ghost use Rattle.books.specs.Ahead.{looks_ahead};
ghost use Rattle.books.specs.Outcomes.{becomes};
ghost use Rattle.books.specs.Ruled.{has_rule};
ghost use Rattle.books.specs.Label.{Label};
ghost use Rattle.books.specs.Contents.{book_in};
ghost use Rattle.books.specs.Became.{Became, BracketsNest};
ghost use Rattle.books.specs.Few.{symbols_in};
ghost use Rattle.books.specs.Kinds.{closed_book};
ghost use Rattle.books.specs.Stored.{listed};
ghost use Rattle.books.specs.Index.{with_letter};
ghost use Rattle.books.specs.Walking.{to_come};

use super::super::contents::Contents;
use super::super::letter_index::LetterIndex;
use super::super::modules::Modules;
use super::super::rules_for::RulesFor;
use super::super::site::Site;
use super::ClosedBook;
use expr::computed::Cause;
use expr::stack::Stack;
use word::module::Module;

// An open and a closed book are two types by a rule of the project: which letters are ignored is handed on from the contents.
impl ClosedBook {
    // The closed book of some contents.
    pub(crate) fn holding(contents: Contents) -> ClosedBook
        ensures { closed_book result ≡ book_in contents }
    {
        let index = LetterIndex::new(contents.rules());
        ClosedBook { contents, index }
    }

    // The rules for a letter. No other rule fits a module of that letter.
    fn rules_for(&self, letter: u8) -> RulesFor<'_>
        ensures { to_come result ≡ with_letter letter (listed self.now.contents.rules) }
    {
        RulesFor::new(letter, self.contents.rules(), &self.index)
    }

    /// Whether there is a rule for a letter. Where there is none, the letter stays as it is.
    #[inline(always)]
    pub fn has_rule_for(&self, letter: u8) -> bool
        ensures { result ≡ has_rule letter (closed_book self.now).rules }
    {
        self.rules_for(letter).next().is_some()
    }

    /// Writes what becomes of a module between its neighbours: the modules of a successor, whose brackets nest, or the module
    /// itself where it stays as it is; answers how deep a successor nests. Or nothing is written, and a fault ends the word. Of the
    /// rules that fit, the one with more neighbours grows; then left before right; then the lower number.
    pub fn becomes(&self, site: Site, grown: &mut Modules, stack: &mut Stack) -> Result<u8, Cause>
        ensures value { Became (symbol_of site.module) (becomes (option_map symbol_of site.left) (symbol_of site.module) (option_map symbol_of site.right) (closed_book self.now).rules) result (symbols_in grown.new) }
        ensures nested { BracketsNest (becomes (option_map symbol_of site.left) (symbol_of site.module) (option_map symbol_of site.right) (closed_book self.now).rules) (symbols_in grown.new) }
        ensures label { Label (closed_book self.now).rules (option_map symbol_of site.left) (symbol_of site.module) (option_map symbol_of site.right) }
        ensures emptied { on_stack stack.new ≡ [] }
    {
        grown.clear();
        stack.clear();
        for rule in self.rules_for(site.module.letter) {
            match rule.try_at(self.contents.code(), site, grown, stack) {
                Ok(None) => {}
                Ok(Some(depth)) => return Ok(depth),
                Err(cause) => {
                    grown.clear();
                    return Err(cause);
                }
            }
        }
        grown.push(site.module);
        Ok(0)
    }

    /// Whether a rule for this letter and so many parameters names a neighbour on the right.
    pub fn looks_ahead(&self, symbol: Module) -> bool
        ensures { result ≡ looks_ahead (symbol_of symbol) (closed_book self.now).rules }
    {
        self.index.looks_ahead(symbol)
    }

    /// Whether a letter is ignored where neighbours are looked for.
    pub fn ignores(&self, letter: u8) -> bool
        ensures { result ≡ (closed_book self.now).ignored letter }
    {
        self.contents.ignores(letter)
    }
}
