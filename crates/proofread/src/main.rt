// Offers each line of standard input to a book, and prints it behind the number of the answer. An empty line begins a new
// book.
#![tactic(auto)]

ghost use Rattle.books.specs.Kinds.{open_book};
ghost use Rattle.books.specs.Loading.{Loads};

use books::open_book::OpenBook;
use std::alloc::Global;
use std::io;
use std::io::{BufRead, BufReader, BufWriter, Write};

// The number of a book's answer to a line, 0 where it takes it: a number, since that is what is printed and what `Loads` speaks of.
fn answer(book: &mut OpenBook, line: &[u8]) -> u8
    ensures { Loads line.now (open_book book.old) result (open_book book.new) }
{
    book.load(line).err().map_or(0, |refusal| refusal.number())
}

// Writes a line behind its answer.
fn show<W: Write>(number: u8, line: &[u8], out: &mut W) -> io::Result<()> {
    write!(out, "{number:3} ")?;
    out.write_all(line)?;
    writeln!(out)
}

// Writes each line of a text behind its answer.
fn proofread<R: BufRead + Drop, W: Write>(heap: Global, text: R, out: &mut W) -> io::Result<()> {
    let mut book = OpenBook::new();
    for line in text.split(heap, b'\n') {
        let line = line?;
        if line.is_empty() {
            book = OpenBook::new();
            writeln!(out)?;
        } else {
            let number = answer(&mut book, &line);
            show(number, &line, out)?;
        }
    }
    Ok(())
}

fn main(rt: HostRuntime) -> io::Result<()> {
    let mut out = BufWriter::new(rt.alloc(), rt.stdout())?;
    proofread(
        rt.alloc(),
        BufReader::new(rt.alloc(), rt.stdin())?,
        &mut out,
    )?;
    out.flush()
}
