// Whether a rule fits, and what its names stand for.
ghost use Rattle.std.specs.Prelude.{◌≡◌, ℕ, ◌≤◌, length, pos, is_some};
ghost use Rattle.std.specs.Option.{option_map};
ghost use Rattle.word.specs.Records.{symbol_of};
ghost use Rattle.expr.specs.Records.{env_of};
ghost use Rattle.rows.specs.Rows.{held};
ghost use Rattle.book.specs.Records.{form_of};
ghost use Rattle.books.specs.Index.{letter_of};
ghost use Rattle.books.specs.Trying.{head_fits, head_names};

use super::super::site::Site;
use super::Rule;
use book::form::fit::{beside, give_beside};
use expr::names::Names;

impl Rule {
    // The letter that the rule is for.
    #[inline(always)]
    pub(crate) fn letter(&self) -> u8
        ensures { result ≡ letter_of self.now }
    {
        self.head.predecessor.letter
    }

    // Whether the forms agree with a module and its neighbours.
    #[inline(always)]
    pub(crate) fn fits(&self, site: Site) -> bool
        ensures { result ≡ head_fits (option_map symbol_of site.left) (symbol_of site.module) (option_map symbol_of site.right) self.now.head }
    {
        self.head.predecessor.agrees(site.module)
            && beside(self.head.before, site.left)
            && beside(self.head.behind, site.right)
    }

    // From now on the names of the forms stand for what they do at a module, where every name stands for 0 before.
    #[inline(always)]
    pub(crate) fn give(&self, site: Site, names: &mut Names)
        requires { (x : ℕ) → env_of names.old x ≡ pos 0 }
        ensures { (x : ℕ) → env_of names.new x ≡ head_names (option_map symbol_of site.left) (symbol_of site.module) (option_map symbol_of site.right) self.now.head x }
    {
        give_beside(self.head.behind, site.right, names);
        self.head.predecessor.give(site.module, names);
        give_beside(self.head.before, site.left, names);
    }

    // How many parameters the rule is for.
    pub(crate) fn parameters(&self) -> usize
        ensures many { result ≡ length (held self.now.head.predecessor.names) }
        ensures few { result ≤ 3 }
    {
        self.head.predecessor.names.len()
    }

    // Whether the rule names a neighbour on the right.
    pub(crate) fn looks_right(&self) -> bool
        ensures { result ≡ is_some (option_map form_of self.now.head.behind) }
    {
        self.head.behind.is_some()
    }
}
