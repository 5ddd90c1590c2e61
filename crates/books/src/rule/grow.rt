// What a rule says and grows to.
ghost use Rattle.std.specs.Prelude.{◌≡◌, ◌+◌, ◌≤◌, List, [], length, take, drop};
ghost use Rattle.std.specs.Option.{option_map};
ghost use Rattle.word.specs.Records.{symbol_of};
ghost use Rattle.expr.specs.Values.{Env, guard, arguments};
ghost use Rattle.expr.specs.declared.code.Code.{Code};
ghost use Rattle.expr.specs.Codes.{comparisons, decoded, latest};
ghost use Rattle.expr.specs.Records.{env_of, verdict_of, arguments_of, Spare, on_stack};
ghost use Rattle.rules.specs.Records.{pieces_from, places_in};
ghost use Rattle.rows.specs.Rows.{held};
ghost use Rattle.books.specs.Outcomes.{successor};
ghost use Rattle.books.specs.Stored.{code_held, rule_in};
ghost use Rattle.books.specs.Few.{modules_in, symbols_in};
ghost use Rattle.books.specs.Trying.{Grows, Grown, GrownDeep, Tried};

use super::super::code_places::CodePlaces;
use super::super::modules::Modules;
use super::super::site::Site;
use super::Rule;
use expr::code::Code;
use expr::computed::Cause;
use expr::names::Names;
use expr::stack::Stack;
use rules::piece::Piece;
use word::module::Module;

// Code and names are two parameters here and below: the names stay, and each call has another part of the code.

// The values of a piece's arguments.
#[inline(always)]
fn worked(
    piece: &Piece,
    code: &[Code],
    names: &Names,
    stack: &mut Stack,
) -> Result<(i32, i32, i32), Cause>
    requires few { length code.now ≤ 200 }
    requires lent { on_stack stack.old ≡ [] }
    ensures values { arguments_of piece.now.count result ≡ arguments (env_of names.now) (latest piece.now.count (decoded [] code.now)) }
    ensures spare { Spare piece.now.count result }
    ensures emptied { on_stack stack.new ≡ [] }
{
    if piece.count == 0 {
        return Ok((0, 0, 0));
    }
    names.arguments(code, piece.count, stack)
}

// One module of a successor, its arguments worked out.
#[inline(always)]
fn grow_piece(
    piece: &Piece,
    code: &[Code],
    names: &Names,
    stack: &mut Stack,
) -> Result<Module, Cause>
    requires few { length code.now ≤ 200 }
    requires lent { on_stack stack.old ≡ [] }
    ensures grown { Grows (env_of names.now) piece.now code.now result }
    ensures emptied { on_stack stack.new ≡ [] }
{
    let Piece { letter, count, .. } = *piece;
    let (a, b, c) = worked(piece, code, names, stack)?;
    Ok(Module {
        letter,
        count,
        a,
        b,
        c,
    })
}

// Writes what some pieces grow to, one after the other. It is written to a row of the caller's, since a row is long to copy.
fn grow_pieces(
    pieces: &[Piece],
    code: &[Code],
    names: &Names,
    grown: &mut Modules,
    stack: &mut Stack,
) -> Result<(), Cause>
    requires few { length pieces.now ≤ 24 }
    requires within { places_in pieces.now ≤ length code.now }
    requires empty { modules_in grown.old ≡ [] }
    requires lent { on_stack stack.old ≡ [] }
    ensures grown { Grown (successor (env_of names.now) (pieces_from pieces.now code.now)) result (symbols_in grown.new) }
    ensures emptied { on_stack stack.new ≡ [] }
{
    let mut rest = code;
    for piece in pieces {
        let (own, behind) = rest.split_at(usize::from(piece.places));
        grown.push(grow_piece(piece, own, names, stack)?);
        rest = behind;
    }
    Ok(())
}

// One module of a successor that has no code: what nothing is laid out for is 0.
#[inline(always)]
fn plain(piece: &Piece) -> Module
    ensures { (g : Env) → Grows g piece.now [] (Ok result) }
{
    let Piece { letter, count, .. } = *piece;
    Module {
        letter,
        count,
        a: 0,
        b: 0,
        c: 0,
    }
}

// Writes what some pieces without code grow to, whatever names stand for.
#[inline(always)]
fn grow_plain(pieces: &[Piece], grown: &mut Modules)
    requires few { length pieces.now ≤ 24 }
    requires plain { places_in pieces.now ≡ 0 }
    requires empty { modules_in grown.old ≡ [] }
    ensures { (g : Env) (cs : List Code) → Grown (successor g (pieces_from pieces.now cs)) (Ok tt) (symbols_in grown.new) }
{
    for piece in pieces {
        grown.push(plain(piece));
    }
}

impl Rule {
    // What the guard comes to.
    #[inline(always)]
    pub(crate) fn says(
        &self,
        code: &[Code],
        names: &Names,
        stack: &mut Stack,
    ) -> Result<bool, Cause>
        requires guarded { self.now.guard ≤ length code.now }
        requires lent { on_stack stack.old ≡ [] }
        ensures said { verdict_of result ≡ guard (env_of names.now) (comparisons [] (take self.now.guard code.now)) }
        ensures emptied { on_stack stack.new ≡ [] }
    {
        if self.guard == 0 {
            return Ok(true);
        }
        names.guard(&code[0..usize::from(self.guard)], stack)
    }

    // Writes what a successor without code grows to; how deep it nests.
    #[inline(always)]
    pub(crate) fn grow_plainly(&self, grown: &mut Modules) -> u8
        requires plain { places_in (held self.now.pieces) ≡ 0 }
        requires empty { modules_in grown.old ≡ [] }
        ensures { (g : Env) (cs : List Code) → GrownDeep (successor g (pieces_from (held self.now.pieces) cs)) (Ok result) (symbols_in grown.new) }
    {
        grow_plain(self.pieces.as_slice(), grown);
        self.depth
    }

    // Writes what the successor grows to; how deep it nests.
    #[inline(always)]
    pub(crate) fn grow(
        &self,
        code: &[Code],
        names: &Names,
        grown: &mut Modules,
        stack: &mut Stack,
    ) -> Result<u8, Cause>
        requires size { self.now.size ≤ length code.now }
        requires empty { modules_in grown.old ≡ [] }
        requires lent { on_stack stack.old ≡ [] }
        ensures grown { GrownDeep (successor (env_of names.now) (pieces_from (held self.now.pieces) (drop self.now.guard code.now))) result (symbols_in grown.new) }
        ensures emptied { on_stack stack.new ≡ [] }
    {
        if self.size == u16::from(self.guard) {
            return Ok(self.grow_plainly(grown));
        }
        grow_pieces(
            self.pieces.as_slice(),
            &code[usize::from(self.guard)..],
            names,
            grown,
            stack,
        )?;
        Ok(self.depth)
    }

    // Writes what becomes of a module between its neighbours by this rule; how deep it nests, or none where it does not decide.
    #[inline(always)]
    pub(crate) fn try_at(
        &self,
        book: &CodePlaces,
        site: Site,
        grown: &mut Modules,
        stack: &mut Stack,
    ) -> Result<Option<u8>, Cause>
        requires part { self.now.start + self.now.size ≤ length (code_held book.now) }
        requires empty { modules_in grown.old ≡ [] }
        requires lent { on_stack stack.old ≡ [] }
        ensures tried { Tried (option_map symbol_of site.left) (symbol_of site.module) (option_map symbol_of site.right) (rule_in (code_held book.now) self.now) result (symbols_in grown.new) }
        ensures emptied { on_stack stack.new ≡ [] }
    {
        if !self.fits(site) {
            return Ok(None);
        }
        if self.size == 0 {
            return Ok(Some(self.grow_plainly(grown)));
        }
        let mut names = Names::new();
        self.give(site, &mut names);
        let code = book.part(usize::from(self.start), usize::from(self.size));
        if !self.says(code, &names, stack)? {
            return Ok(None);
        }
        let depth = self.grow(code, &names, grown, stack)?;
        Ok(Some(depth))
    }
}
