// The whole listing: the header, and the lines behind it.
ghost use Rattle.listing.specs.Whole.{whole_listing};
ghost use Rattle.lines.specs.Lines.{HasRows};

use lines::{Header, put_lines};
use sinks::{Content, Sink};

// What a listing is made of: its header, and a plan with a row for each slot.
#[derive(Clone, Copy)]
pub struct Listing<'a> {
    pub head: Header,
    pub plan: &'a [u8],
    pub slots: u32,
    ghost has_rows: { HasRows plan.now head.queues slots },
}

impl Content for Listing<'_> {
    ghost bytes = { λ s. whole_listing s.head.queues s.head.scale s.head.least s.plan.now s.slots };

    fn put<S: Sink>(self, sink: &mut S) {
        self.head.put(sink);
        put_lines(sink, self.plan, self.head.queues, self.slots);
    }
}
