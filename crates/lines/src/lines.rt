// The lines of a listing: for each slot its number, a colon, and the plan byte of each queue in order.
ghost use Rattle.std.specs.Prelude.{length};
ghost use Rattle.model.specs.Listing.{bytes_listed, line_of};
ghost use Rattle.buffers.specs.Fills.{number_at};
ghost use Rattle.lines.specs.Lines.{lines_to, HasRows};

use decimals::{put_decimal, put_with_text};
use layout::row_of;
use sinks::Sink;

// Puts the plan bytes of a slot, each after a space.
fn put_bytes<S: Sink>(sink: &mut S, row: &[u8])
    requires { S.HasRoom sink.old (length (bytes_listed (number_at row.now) (length row.now))) }
    ensures { S.Puts sink.old (bytes_listed (number_at row.now) (length row.now)) sink.new }
{
    for &byte in row {
        put_with_text(sink, b" ", byte as u64);
    }
}

// Puts the line of a slot.
fn put_line<S: Sink>(sink: &mut S, slot: u32, row: &[u8])
    requires { S.HasRoom sink.old (length (line_of slot (number_at row.now) (length row.now))) }
    ensures { S.Puts sink.old (line_of slot (number_at row.now) (length row.now)) sink.new }
{
    put_decimal(sink, slot as u64);
    sink.put(b":");
    put_bytes(sink, row);
    sink.put(b"\n");
}

// Puts the lines of the first so many slots.
pub fn put_lines<S: Sink>(sink: &mut S, plan: &[u8], queues: usize, slots: u32)
    requires { HasRows plan.now queues slots × S.HasRoom sink.old (length (lines_to plan.now queues slots)) }
    ensures { S.Puts sink.old (lines_to plan.now queues slots) sink.new }
{
    for slot in 0..slots {
        put_line(sink, slot, row_of(plan, queues, slot));
    }
}
