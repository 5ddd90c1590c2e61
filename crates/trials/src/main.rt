// Drives a plot over piles of both layers, in both orders: on each step a small page is lent, and where it is full another sheet.
// Between steps the whereabouts and the report are asked for. Every answer is printed.
#![tactic(auto)]

use books::closed_book::ClosedBook;
use books::open_book::OpenBook;
use generation::layer::Generation;
use plot::plot::Plot;
use plot::stop::Stop;
use pruner::Pruner;
use seed::seed::Seed;
use sheet::page::Page;
use sheet::sheet::Sheet;
use sheet::tally::Tally;
use std::io;
use word::module::Module;
use word::source::Source;

const SEED: &[u8] = b"F(2)[+AF(3)%A]F(4096)";

const LINES: [&[u8]; 3] = [
    b"1: A -> F(2)[-F]%",
    b"2: F(x) ? x > 4000 -> F(x-4093)fF(4095)",
    b"~+-",
];

// The lines make a book; each is by the grammar.
fn book() -> ClosedBook {
    let mut open = OpenBook::new();
    for line in LINES {
        let _ = open.load(line);
    }
    open.close()
}

// What a step answered.
fn show_answer(rt: &impl Print, answer: Result<Option<Module>, Stop>) -> io::Result<()> {
    match answer {
        Ok(Some(module)) => println!(rt; "took {module}"),
        Ok(None) => println!(rt; "ended"),
        Err(Stop::Fault(fault)) => println!(rt; "fault {fault}"),
        Err(Stop::NoSpace) => println!(rt; "no space"),
    }
}

fn show_place<S: Source + Drop>(rt: &impl Print, plot: &Plot<S>) -> io::Result<()> {
    let ((x, y, z), orientation) = plot.whereabouts();
    println!(rt; "  at {x} {y} {z}, orientation {orientation}")
}

fn show_report<S: Source + Drop>(rt: &impl Print, plot: &Plot<S>) -> io::Result<()> {
    let mut short = [b'-'; 159];
    let refused = plot.report(&mut short);
    let mut buffer = [b'-'; 160];
    match (refused, plot.report(&mut buffer)) {
        (Err(refusal), Ok(length)) => {
            println!(rt; "  refused {} and then", refusal.number())?;
            for byte in &buffer[..length] {
                print!(rt; "{}", char::from(*byte))?;
            }
            Ok(())
        }
        _ => println!(rt; "  no report"),
    }
}

// One step on the first sheet; where it is full, another on the second.
fn step<S: Source + Drop, K: Sheet, L: Sheet>(
    rt: &impl Print,
    plot: &mut Plot<S>,
    first: &mut K,
    second: &mut L,
) -> io::Result<()> {
    let answer = plot.step(first);
    show_answer(rt, answer)?;
    if answer == Err(Stop::NoSpace) {
        let again = plot.step(second);
        show_answer(rt, again)?;
    }
    Ok(())
}

fn show_bytes(rt: &impl Print, bytes: &[u8]) -> io::Result<()> {
    for byte in bytes {
        print!(rt; " {byte:02x}")?;
    }
    println!(rt; "")
}

fn trial<S: Source + Drop>(rt: &impl Print, source: S) -> io::Result<()> {
    let mut plot = Plot::new(source);
    let mut small = [0xee; 19];
    let mut page = Page::new(&mut small);
    let mut large = [0xee; 43];
    let mut other = Page::new(&mut large);
    show_report(rt, &plot)?;
    for turn in 0..16 {
        step(rt, &mut plot, &mut page, &mut other)?;
        if turn % 3 == 0 {
            show_place(rt, &plot)?;
        }
    }
    show_report(rt, &plot)?;
    println!(rt;
        "  pages of {} and {}",
        page.tally().count(),
        other.tally().count()
    )?;
    show_bytes(rt, &small)?;
    show_bytes(rt, &large)
}

// The same word on one large page: its bytes are those of the two pages, one behind the other.
fn whole<S: Source + Drop>(rt: &impl Print, source: S) -> io::Result<()> {
    let mut plot = Plot::new(source);
    let mut buffer = [0xee; 62];
    let mut page = Page::new(&mut buffer);
    for _ in 0..16 {
        let _ = plot.step(&mut page);
    }
    println!(rt; "  one page of {}", page.tally().count())?;
    show_bytes(rt, &buffer)
}

// Whatever a word draws comes upon a tally; the fault of a limit is answered again and again.
fn limit(rt: &impl Print, text: &[u8]) -> io::Result<()> {
    let mut plot = Plot::new(Seed::new(text));
    let mut tally = Tally::new();
    for _ in 0..10 {
        let answer = plot.step(&mut tally);
        show_answer(rt, answer)?;
    }
    show_report(rt, &plot)
}

fn main(rt: HostRuntime) -> io::Result<()> {
    let book = book();
    println!(&rt; "a pruner on a generation")?;
    trial(&rt, Pruner::new(Generation::new(Seed::new(SEED), book)))?;
    whole(&rt, Pruner::new(Generation::new(Seed::new(SEED), book)))?;
    println!(&rt; "a generation on a pruner")?;
    trial(&rt, Generation::new(Pruner::new(Seed::new(SEED)), book))?;
    whole(&rt, Generation::new(Pruner::new(Seed::new(SEED)), book))?;
    println!(&rt; "no layer")?;
    trial(&rt, Seed::new(b"F(2)[+F]"))?;
    println!(&rt; "limits")?;
    limit(&rt, b"F(4096)")?;
    limit(
        &rt,
        b"F(4095)F(4095)F(4095)F(4095)F(4095)F(4095)F(4095)F(4095)",
    )
}
