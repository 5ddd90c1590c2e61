// The answer to a job, as text.
ghost use Rattle.std.specs.Prelude.{Some};
ghost use Rattle.filling.specs.Orders.{Orders};
ghost use Rattle.unroll.specs.Printed.{answer_text};

use filling::order::{Order, order_of};
use filling::refusal::JobRefusal;
use pile::pile::pile_of;
use std::fmt;
use text::show::show_word;

/// The answer to a job, by what it asks for.
#[derive(Clone, Copy)]
pub struct Answer<'a> {
    pub order: Result<Order<'a>, JobRefusal>,
}

/// The answer to the job that some bytes are.
pub fn answer_to(bytes: &[u8]) -> Answer<'_>
    ensures { Orders bytes.now result.order }
{
    Answer {
        order: order_of(bytes),
    }
}

impl fmt::Display for Answer<'_> {
    ghost output = { λ a. Some (answer_text a.order) };

    fn fmt<W: fmt::Write>(&self, f: &mut fmt::Formatter<W>) -> fmt::Result {
        match &self.order {
            Err(refusal) => writeln!(f, "refused {refusal}"),
            Ok(order) => show_word(&mut pile_of(order.generations, order.seed, order.book), f),
        }
    }
}
