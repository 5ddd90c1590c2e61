ghost use Rattle.std.specs.Prelude.{◌≡◌, ℕ};
ghost use Rattle.std.specs.Option.{option_map};
ghost use Rattle.word.specs.Records.{symbol_of};
ghost use Rattle.expr.specs.Records.{env_of};
ghost use Rattle.book.specs.Rules.{agrees, given, beside, given_beside};
ghost use Rattle.book.specs.Records.{form_of};
ghost use Rattle.book.specs.Binding.{bound};

use super::Form;
use expr::names::Names;
use word::module::Module;

impl Form {
    /// Whether a module has the form's letter and as many parameters as the form has names.
    #[inline(always)]
    pub fn agrees(&self, symbol: Module) -> bool
        ensures { result ≡ agrees (form_of self.now) (symbol_of symbol) }
    {
        self.letter == symbol.letter && self.names.len() == usize::from(symbol.count)
    }

    // From now on the name at a place, if there is one, stands for a value.
    #[inline(always)]
    fn bind_at(&self, at: usize, value: i32, names: &mut Names)
        ensures { (x : ℕ) → env_of names.new x ≡ bound (form_of self.now).names at value (env_of names.old) x }
    {
        let own = self.names.as_slice();
        if at < own.len() {
            names.bind(own[at], value);
        }
    }

    /// From now on each name of the form stands for the module's parameter at its place.
    #[inline(always)]
    pub fn give(&self, symbol: Module, names: &mut Names)
        ensures { (x : ℕ) → env_of names.new x ≡ given (form_of self.now).names (symbol_of symbol).params (env_of names.old) x }
    {
        // Of equal names the first counts, so it is given last.
        match symbol.count {
            0 => {}
            1 => self.bind_at(0, symbol.a, names),
            2 => {
                self.bind_at(1, symbol.b, names);
                self.bind_at(0, symbol.a, names)
            }
            _ => {
                self.bind_at(2, symbol.c, names);
                self.bind_at(1, symbol.b, names);
                self.bind_at(0, symbol.a, names)
            }
        }
    }
}

/// Whether a side of a rule agrees with a neighbour: one without a form agrees with any, a form wants one that agrees.
#[inline(always)]
pub fn beside(form: Option<Form>, neighbour: Option<Module>) -> bool
    ensures { result ≡ beside (option_map form_of form) (option_map symbol_of neighbour) }
{
    form.is_none_or(|form| neighbour.is_some_and(|symbol| form.agrees(symbol)))
}

/// From now on the names of a side stand for its neighbour's parameters.
#[inline(always)]
pub fn give_beside(form: Option<Form>, neighbour: Option<Module>, names: &mut Names)
    ensures { (x : ℕ) → env_of names.new x ≡ given_beside (option_map form_of form) (option_map symbol_of neighbour) (env_of names.old) x }
{
    if let (Some(form), Some(symbol)) = (form, neighbour) {
        form.give(symbol, names);
    }
}
