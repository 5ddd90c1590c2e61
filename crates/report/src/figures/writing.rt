ghost use Rattle.std.specs.Prelude.{◌≡◌, ◌≤◌, length};
ghost use Rattle.std.specs.Option.{option_map};
ghost use Rattle.rows.specs.Rows.{held};
ghost use Rattle.report.specs.Text.{Grows, on_a_line};
ghost use Rattle.report.specs.Report.{box_text, ending_text, report_text, Writes};
ghost use Rattle.report.specs.Boxes.{box_of};
ghost use Rattle.report.specs.Examples.{Examples};

use super::super::bounds::Bounds;
use super::super::ending::Ending;
use super::super::short_buffer::ShortBuffer;
use super::super::text::{MOST, Text, push, push_coordinate, push_line, push_number};
use super::Figures;

// The line of the box.
fn push_box(text: &mut Text, bounds: Option<Bounds>)
    ensures { Grows (held text.old) (on_a_line (box_text (option_map box_of bounds))) (held text.new) }
{
    let Some(Bounds { least, greatest }) = bounds else {
        return push(text, b"box none\n");
    };
    push(text, b"box");
    push_coordinate(text, least.x);
    push_coordinate(text, greatest.x);
    push_coordinate(text, least.y);
    push_coordinate(text, greatest.y);
    push_coordinate(text, least.z);
    push_coordinate(text, greatest.z);
    push(text, b"\n");
}

// The last line, which is short, whatever the fault: its numbers have few digits by their types.
fn push_ending(text: &mut Text, ending: Ending)
    ensures text { Grows (held text.old) (on_a_line (ending_text ending)) (held text.new) }
    ensures short { length (on_a_line (ending_text ending)) ≤ 29 }
{
    match ending {
        Ending::Open => push(text, b"end open\n"),
        Ending::Clean => push(text, b"end clean\n"),
        Ending::Broken(fault) => {
            push(text, b"end fault");
            push_number(text, u64::from(fault.cause));
            push_number(text, u64::from(fault.generation));
            push_number(text, u64::from(fault.place));
            push(text, b"\n");
        }
    }
}

impl Figures {
    // The whole report, which is shorter than the longest text.
    fn text(&self) -> Text
        ensures { held result ≡ report_text self.now }
    {
        let Figures {
            modules,
            segments,
            length,
            bounds,
            deepest,
            ending,
        } = *self;
        let mut text = Text::new(0);
        push_line(&mut text, b"modules", u64::from(modules));
        push_line(&mut text, b"segments", u64::from(segments));
        push_line(&mut text, b"length", length);
        push_box(&mut text, bounds);
        push_line(&mut text, b"deepest", u64::from(deepest));
        push_ending(&mut text, ending);
        text
    }

    /// Writes the report to the start of a buffer of 160 bytes or more, leaves the bytes behind it as they were, and tells
    /// its length. In a shorter buffer nothing changes.
    pub fn write(&self, buffer: &mut [u8]) -> Result<usize, ShortBuffer>
        ensures { Writes (report_text self.now) buffer.old result buffer.new }
    {
        // whatever the figures are: a buffer serves every report, or none
        if buffer.len() < MOST {
            return Err(ShortBuffer);
        }
        let text = self.text();
        buffer[..text.len()].copy_from_slice(text.as_slice());
        Ok(text.len())
    }
}

/// What some reports are.
pub fn examples_stand()
    ensures { Examples }
{}
