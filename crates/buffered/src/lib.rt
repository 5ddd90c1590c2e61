// A source that is drawn from in batches.
#![tactic(auto)]

ghost use Rattle.std.specs.Prelude.{◌≡◌, ◌+◌, ◌≤◌, true, length, map, take};
ghost use Rattle.word.specs.Records.{symbol_of};
ghost use Rattle.word.specs.Spans.{spans};
ghost use Rattle.buffered.specs.Held.{left_in, Refills};
ghost use Rattle.buffered.specs.Lawful.{lawful_in};

use word::depth::Depth;
use word::fault::Fault;
use word::module::Module;
use word::source::Source;

/// A source with up to 64 modules drawn from it already. It tells the word of that source.
#[derive(Drop)]
pub struct Buffered<S: Source + Drop> {
    below: S,
    row: [Module; 64],
    // the modules held are those of the row from `at` to `count`
    at: usize,
    count: usize,
    // the brackets open before the first module of the row
    first: Depth,
    // the fault that the word has ended in
    fault: Option<Fault>,
    ghost wide: { length row ≡ 64 },
    ghost ordered: { at ≤ count },
    ghost within: { count ≤ 64 },
    ghost joined: { spans first.brackets (map symbol_of (take count row)) (S.Source.means below).opened ≡ true },
    ghost few: { count + length (S.Source.means below).told.modules ≤ 16_000_000 },
}

impl<S: Source + Drop> Buffered<S> {
    /// A buffered source tells the word of the source below.
    pub fn new(below: S) -> Buffered<S>
        ensures { ⟦<Buffered<S> as Source>⟧.means result ≡ S.Source.means below }
    {
        let first = below.open_brackets();
        Buffered {
            below,
            row: [Module::BLANK; 64],
            at: 0,
            count: 0,
            first,
            fault: None,
        }
    }

    // Draws some modules where none is held, and says whether there are any; where there are none, how the word has ended is noted.
    #[inline(never)]
    fn refill(&mut self) -> bool
        requires { self.old.at ≡ self.old.count }
        ensures { Refills (⟦<Buffered<S> as Source>⟧.means self.old) result (⟦<Buffered<S> as Source>⟧.means self.new) self.new.at self.new.count self.new.fault }
    {
        self.first = self.below.open_brackets();
        self.at = 0;
        self.count = 0;
        self.fault = None;
        match self.below.draw_some(&mut self.row) {
            Ok(count) => self.count = count,
            Err(fault) => self.fault = Some(fault),
        }
        self.count > 0
    }
}

impl<S: Source + Drop> Source for Buffered<S> {
    ghost means = { λ s. left_in s.row s.at s.count s.first.brackets (S.Source.means s.below) };

    ghost lawful = { λ s. lawful_in s.row s.at s.count s.first.brackets _ s.ordered s.joined s.few (S.Source.lawful s.below) };

    #[inline(always)]
    fn draw(&mut self) -> Result<Option<Module>, Fault> {
        if self.at == self.count && !self.refill() {
            return self.fault.map_or(Ok(None), Err);
        }
        let module = self.row[self.at];
        self.at += 1;
        Ok(Some(module))
    }

    fn open_brackets(&self) -> Depth {
        self.first.after_all(&self.row[..self.at]).unwrap()
    }

    fn generation(&self) -> u8 {
        self.below.generation()
    }
}
