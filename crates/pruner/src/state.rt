// Whether modules are passed on.
ghost use Rattle.std.specs.Prelude.{◌≡◌, ◌≤◌, ◌<◌, length, min};
ghost use Rattle.std.specs.List.{list_any};
ghost use Rattle.word.specs.Records.{symbol_of};
ghost use Rattle.word.specs.Words.{after};
ghost use Rattle.pruner.specs.Pruned.{is_cut};
ghost use Rattle.pruner.specs.Streaming.{BehindDropped, Sifts};

use word::depth::Depth;
use word::module::Module;

// Whether modules are passed on, or dropped while at least so many brackets are open. A state by name, where an `Option` would
// not say what none means: what becomes of a module matches it and the module together.
#[derive(Clone, Copy)]
pub(crate) enum State {
    Passing,
    // a number, since it is compared and the least of two is taken: a `Depth` has no order
    Dropping(u8),
}

// The brackets open behind a module.
#[inline(always)]
fn behind(before: u8, module: Module) -> u8
    requires { before < 255 }
    ensures { result ≡ after before (symbol_of «module») }
{
    match module.letter {
        b'[' => before + 1,
        b']' => before.saturating_sub(1),
        _ => before,
    }
}

// Whether a `%` is among some modules.
#[inline(always)]
fn has_cut(modules: &[Module]) -> bool
    ensures { result ≡ list_any (λ m. is_cut m.letter) modules.now }
{
    modules.iter().any(|module| module.letter == b'%')
}

impl State {
    // The state behind a module that is dropped; none where the module is passed on.
    #[inline(always)]
    pub(crate) fn behind_dropped(self, module: Module, before: u8, lowest: u8) -> Option<State>
        requires { lowest ≡ min before (after before (symbol_of «module»)) }
        ensures { BehindDropped self before (symbol_of «module») result }
    {
        match (self, module) {
            (State::Passing, module) if module.letter == b'%' => Some(State::Dropping(before)),
            (State::Dropping(floor), _) if floor <= lowest => Some(self),
            (_, _) => None,
        }
    }

    // Puts the modules that are passed on into the first of some places, and goes on behind all of them.
    #[inline(always)]
    pub(crate) fn sift(&mut self, before: Depth, modules: &[Module], places: &mut [Module]) -> usize
        requires fits { length modules.now ≤ length places.old }
        requires few { length modules.now ≤ 64 }
        ensures { Sifts self.old before.brackets modules.now places.old result places.new self.new }
    {
        match *self {
            State::Passing if !has_cut(modules) => {
                places[..modules.len()].copy_from_slice(modules);
                modules.len()
            }
            _ => self.sift_each(before, modules, places),
        }
    }

    // The same, module by module.
    fn sift_each(&mut self, before: Depth, modules: &[Module], places: &mut [Module]) -> usize
        requires fits { length modules.now ≤ length places.old }
        requires few { length modules.now ≤ 64 }
        ensures { Sifts self.old before.brackets modules.now places.old result places.new self.new }
    {
        let mut state = *self;
        let mut before = before.brackets;
        let mut kept = 0;
        for module in modules {
            let behind = behind(before, *module);
            if let Some(dropped) = state.behind_dropped(*module, before, before.min(behind)) {
                state = dropped;
            } else {
                state = State::Passing;
                places[kept] = *module;
                kept += 1;
            }
            before = behind;
        }
        *self = state;
        kept
    }
}
