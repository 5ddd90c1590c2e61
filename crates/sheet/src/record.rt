// The record of a segment, as bits and as bytes.
ghost use Rattle.std.specs.Prelude.{◌≡◌, ◌+◌, ◌-◌, ◌*◌, ◌^◌, ◌<◌, ◌≤◌, true, ◌++◌, length, take, drop};
ghost use Rattle.turtle.specs.Poses.{in_bounds};
ghost use Rattle.turtle.specs.Stances.{stroke_of};
ghost use Rattle.sheet.specs.Records.{twos, fields, packed, record_of};

use turtle::segment::Segment;

// How many bytes a record takes.
pub(crate) const BYTES: usize = 8;

// A coordinate in two's complement.
fn complement(number: i32) -> u16
    requires { in_bounds number ≡ true }
    ensures { result ≡ twos 16 number }
{
    // within ±30,000, so it fits; no `From` narrows
    (number as i16).cast_unsigned()
}

// The bits with a number of so many bits at their end.
fn appended(bits: u64, width: u32, value: u16) -> u64
    requires narrow { width ≤ 16 }
    requires room { bits < 2 ^ (64 - width) }
    requires fits { value < 2 ^ width }
    ensures { result ≡ bits * 2 ^ width + value }
{
    bits << width | u64::from(value)
}

// The bits of a segment's record.
fn pack(segment: Segment) -> u64
    ensures { result ≡ packed 0 (fields (stroke_of segment)) }
{
    let bits = appended(0, 16, complement(segment.start.x));
    let bits = appended(bits, 16, complement(segment.start.y));
    let bits = appended(bits, 16, complement(segment.start.z));
    let bits = appended(bits, 3, segment.heading as u16);
    let bits = appended(bits, 12, segment.length);
    appended(bits, 1, 0)
}

// Writes a segment's record into a buffer, from a byte on.
pub(crate) fn write_record(buffer: &mut [u8], at: usize, segment: Segment)
    requires { at + 8 ≤ length buffer.old }
    ensures { buffer.new ≡ take at buffer.old ++ (record_of (stroke_of segment) ++ drop (at + 8) buffer.old) }
{
    buffer[at..at + BYTES].copy_from_slice(&pack(segment).to_be_bytes());
}
