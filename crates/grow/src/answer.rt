// The answer to a job, as text.
ghost use Rattle.std.specs.Prelude.{Some};
ghost use Rattle.report.specs.Report.{Writes};
ghost use Rattle.filling.specs.Orders.{Orders};
ghost use Rattle.grow.specs.Printed.{order_text, answer_text};

use filling::order::{Order, order_of};
use filling::refusal::JobRefusal;
use pile::pile::pile_of;
use runs::run::plot_word;
use std::{fmt, str};

// No report has more bytes.
const LONGEST: usize = 160;

/// The answer to a job, by what it asks for.
#[derive(Clone, Copy)]
pub struct Answer<'a> {
    pub order: Result<Order<'a>, JobRefusal>,
}

/// The answer to the job that some bytes are.
pub fn answer_to(bytes: &[u8]) -> Answer<'_>
    ensures { Orders bytes.now result.order }
{
    Answer {
        order: order_of(bytes),
    }
}

// Plots the word that an order grows to, writes the report to a buffer, and answers how long it is.
fn report_on(order: Order, buffer: &mut [u8; LONGEST]) -> usize
    ensures { Writes (order_text order.entry) buffer.old (Ok result) buffer.new }
{
    let plot = plot_word(pile_of(order.generations, order.seed, order.book));
    plot.report(buffer).unwrap()
}

impl fmt::Display for Answer<'_> {
    ghost output = { λ a. Some (answer_text a.order) };

    fn fmt<W: fmt::Write>(&self, f: &mut fmt::Formatter<W>) -> fmt::Result {
        match self.order {
            Err(refusal) => writeln!(f, "refused {refusal}"),
            Ok(order) => {
                let mut buffer = [0; LONGEST];
                let length = report_on(order, &mut buffer);
                // a report is ASCII
                let report = str::from_utf8(&buffer[..length]).map_err(|_| fmt::Error)?;
                f.write_str(report)
            }
        }
    }
}
