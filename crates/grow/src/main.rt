// Follows the word that the job on standard input grows to with the turtle, and prints the report.
#![tactic(auto)]

mod answer;
#[cfg(test)]
mod tests;

use answer::answer_to;
use job::job::LONGEST;
use std::io;
use std::io::{BufWriter, Read, Write};

fn main(rt: HostRuntime) -> io::Result<()> {
    // one byte more than a job may have is enough to refuse it; no `From` makes a `usize` a `u64`
    let mut bytes = Vec::new(rt.alloc());
    rt.stdin().take(LONGEST as u64 + 1).read_to_end(&mut bytes)?;
    let mut out = BufWriter::new(rt.alloc(), rt.stdout())?;
    write!(out, "{}", answer_to(&bytes))?;
    out.flush()
}
