// The header of a listing: N, W to the power T, and the empty queue's value at slot 0.
ghost use Rattle.std.specs.Prelude.{◌≡◌, length};
ghost use Rattle.model.specs.View.{view_of};
ghost use Rattle.model.specs.Listing.{scale_of, header};
ghost use Rattle.model.specs.Refusal.{sheet_refusal, value_limit};

use decimals::put_with_text;
use limits::weights;
use model::Sheet;
use ranges::Ranged;
use sinks::Sink;

// What the header tells.
#[derive(Clone, Copy)]
pub struct Header {
    pub queues: usize,
    pub scale: u64,
    pub least: u64,
}

// W to the power T.
pub fn scale_of(sheet: Sheet) -> u64
    requires { sheet_refusal value_limit (view_of sheet) ≡ 0 }
    ensures { result ≡ scale_of (view_of sheet) }
{
    let weight_sum = weights(Ranged { sheet }) as u64;
    weight_sum.pow(sheet.horizon)
}

impl Header {
    // Puts the header.
    pub fn put<S: Sink>(self, sink: &mut S)
        requires { S.HasRoom sink.old (length (header self.queues self.scale self.least)) }
        ensures { S.Puts sink.old (header self.queues self.scale self.least) sink.new }
    {
        put_with_text(sink, b"queues ", self.queues as u64);
        put_with_text(sink, b" scale ", self.scale);
        put_with_text(sink, b" least ", self.least);
        sink.put(b"\n");
    }
}
