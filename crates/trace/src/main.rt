// Walks a drawing word from home, on a page and on a tally, and shows what the two sheets hold then.
#![tactic(auto)]

use sheet::page::Page;
use sheet::sheet::Sheet;
use sheet::tally::Tally;
use std::io;
use turtle::act::Act;
use turtle::pose::Pose;
use word::module::Module;

// Letters, each with its one parameter.
const WORD: [(u8, i32); 14] = [
    (b'F', 3),
    (b'+', 1),
    (b'F', 2),
    (b'f', 4000),
    (b'&', 1),
    (b'F', 4095),
    (b'F', 4096),
    (b'A', 7),
    (b'F', 0),
    (b'/', 1),
    (b'|', 1),
    (b'F', 12),
    (b'^', 1),
    (b'F', 1),
];

// Puts what the word draws on a sheet, and tells what is turned down.
fn walk<S: Sheet>(rt: &impl Print, sheet: &mut S) -> io::Result<()> {
    let mut pose = Pose::home();
    for (letter, parameter) in WORD {
        let Some(next) = Module::new(letter, &[parameter]) else {
            continue;
        };
        match pose.act(next) {
            Ok(Act::Goes(there)) => pose = there,
            Ok(Act::Draws(segment, there)) => match sheet.put(segment) {
                Ok(()) => pose = there,
                Err(full) => println!(rt; "{next} is {}", full.cause())?,
            },
            Err(limit) => println!(rt; "{next} is {}", limit.cause())?,
        }
    }
    let ((x, y, z), orientation) = pose.whereabouts();
    println!(rt; "at {x} {y} {z}, orientation {orientation}")
}

fn show_tally(rt: &impl Print, tally: Tally, space: u32) -> io::Result<()> {
    println!(rt;
        "count {}, length {}, space {space}",
        tally.count(),
        tally.length()
    )
}

// Eight bytes to a line.
fn show_bytes(rt: &impl Print, bytes: &[u8]) -> io::Result<()> {
    for record in bytes.chunks(8) {
        let mut gap = "";
        for byte in record {
            print!(rt; "{gap}{byte:02x}")?;
            gap = " ";
        }
        println!(rt; "")?;
    }
    Ok(())
}

fn on_page(rt: &impl Print) -> io::Result<()> {
    let mut buffer = [0xee; 36];
    let mut page = Page::new(&mut buffer);
    walk(rt, &mut page)?;
    show_tally(rt, page.tally(), page.space())?;
    show_bytes(rt, &buffer)
}

fn on_tally(rt: &impl Print) -> io::Result<()> {
    let mut tally = Tally::new();
    walk(rt, &mut tally)?;
    show_tally(rt, tally, tally.space())
}

fn main(rt: HostRuntime) -> io::Result<()> {
    on_page(&rt)?;
    on_tally(&rt)
}
