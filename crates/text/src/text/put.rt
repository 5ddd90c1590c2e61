// Modules and numbers put at a place of some bytes.
ghost use Rattle.std.specs.Prelude.{◌≡◌, ◌+◌, ◌*◌, ◌<◌, ◌≤◌, ◌∷◌, [], length, map, true, decimal};
ghost use Rattle.std.specs.Fmt.{signed_decimal};
ghost use Rattle.word.specs.Symbols.{in_range};
ghost use Rattle.word.specs.Records.{symbol_of};
ghost use Rattle.word.specs.Text.{written, spelled};
ghost use Rattle.text.specs.Texts.{Puts};

use super::PLACES;
use itoa::write_digits;
use word::module::Module;

// How many digits a number has.
#[inline(always)]
fn digits(number: u32) -> usize
    requires { number < 10_000_000 }
    ensures count { result ≡ length (decimal number) }
    ensures most { result ≤ 7 }
{
    if number < 10 {
        1
    } else if number < 100 {
        2
    } else if number < 1_000 {
        3
    } else if number < 10_000 {
        4
    } else if number < 100_000 {
        5
    } else if number < 1_000_000 {
        6
    } else {
        7
    }
}

// Puts the digits of a number at a place: the place behind them.
#[inline(always)]
fn put_digits(bytes: &mut [u8; PLACES], at: usize, number: u32) -> usize
    requires small { number < 10_000_000 }
    requires room { at + 7 ≤ 4096 }
    ensures puts { Puts at (decimal number) bytes.old result bytes.new }
    ensures within { result ≤ at + 7 }
{
    let end = at + digits(number);
    write_digits(u64::from(number), bytes, end);
    end
}

// Puts a number at a place: the place behind it.
#[inline(always)]
fn put_number(bytes: &mut [u8; PLACES], at: usize, number: i32) -> usize
    requires small { in_range number ≡ true }
    requires room { at + 8 ≤ 4096 }
    ensures puts { Puts at (signed_decimal number) bytes.old result bytes.new }
    ensures within { result ≤ at + 8 }
{
    if number >= 0 {
        return put_digits(bytes, at, number.unsigned_abs());
    }
    bytes[at] = b'-';
    put_digits(bytes, at + 1, number.unsigned_abs())
}

// Puts a byte and, behind it, a number at a place: the place behind both.
#[inline(always)]
fn put_behind(byte: u8, bytes: &mut [u8; PLACES], at: usize, number: i32) -> usize
    requires small { in_range number ≡ true }
    requires room { at + 9 ≤ 4096 }
    ensures puts { Puts at (byte ∷ signed_decimal number) bytes.old result bytes.new }
    ensures within { result ≤ at + 9 }
{
    bytes[at] = byte;
    put_number(bytes, at + 1, number)
}

// Puts a parenthesis that closes a list at a place: the place behind it.
#[inline(always)]
fn put_close(bytes: &mut [u8; PLACES], at: usize) -> usize
    requires { at < 4096 }
    ensures puts { Puts at (41 ∷ []) bytes.old result bytes.new }
    ensures within { result ≤ at + 1 }
{
    bytes[at] = b')';
    at + 1
}

// Puts a module in its written form at a place: the place behind it.
#[inline(always)]
fn put_module(bytes: &mut [u8; PLACES], at: usize, symbol: Module) -> usize
    requires { at + 29 ≤ 4096 }
    ensures puts { Puts at (written (symbol_of symbol)) bytes.old result bytes.new }
    ensures within { result ≤ at + 29 }
{
    bytes[at] = symbol.letter;
    if symbol.count == 0 {
        return at + 1;
    }
    let first = put_behind(b'(', bytes, at + 1, symbol.a);
    if symbol.count == 1 {
        return put_close(bytes, first);
    }
    let second = put_behind(b',', bytes, first, symbol.b);
    if symbol.count == 2 {
        return put_close(bytes, second);
    }
    let third = put_behind(b',', bytes, second, symbol.c);
    put_close(bytes, third)
}

// Puts modules in their written form at a place, one after the other: the place behind them.
#[inline(always)]
pub(super) fn put_modules(bytes: &mut [u8; PLACES], at: usize, modules: &[Module]) -> usize
    requires few { length modules.now ≤ 64 }
    requires room { at + 64 * 29 ≤ 4096 }
    ensures puts { Puts at (spelled (map symbol_of modules.now)) bytes.old result bytes.new }
    ensures within { result ≤ 4096 }
{
    let mut end = at;
    for symbol in modules {
        end = put_module(bytes, end, *symbol);
    }
    end
}
