// The line that the programs write for a refusal.
ghost use Rattle.std.specs.Prelude.{◌≤◌, length};
ghost use Rattle.model.specs.Listing.{refused_line};
ghost use Rattle.buffers.specs.Laid.{Laid};

use crate::decimal::put_with_text;
use sinks::{Lent, Sink};

// Puts the line of a number.
fn put_line<S: Sink>(sink: &mut S, number: u32)
    requires { S.HasRoom sink.old (length (refused_line number)) }
    ensures { S.Puts sink.old (refused_line number) sink.new }
{
    put_with_text(sink, b"refused ", number as u64);
    sink.put(b"\n");
}

// Puts the line of a number at the first place; answers how long it is.
pub fn put_refused(buffer: &mut [u8], number: u32) -> usize
    requires { 29 ≤ length buffer.old }
    ensures { Laid 0 (refused_line number) buffer.old buffer.new result × (result ≤ 29) }
{
    let mut line = Lent { buffer, at: 0 };
    put_line(&mut line, number);
    line.at
}
