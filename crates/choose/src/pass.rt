// What the second pass over a slot is given, and the queues of a row, one after the other in the order of their numbers.
ghost use Rattle.std.specs.Prelude.{◌≡◌, suc, ◌<◌, MatchOption};
ghost use Rattle.std.specs.Iterator.{at_most};
ghost use Rattle.queues.specs.Blocks.{lowest_of};
ghost use Rattle.value.specs.Narrow.{width};
ghost use Rattle.choose.specs.Pass.{Given, IsQueue, At, Next, Ended, number_of, queues_left, sheet_of, sizes_of};

use rows::Line;
use sheets::Sizes;
use speed_lanes::SpeedLanes;
use value::Value;

// What the pass goes by: the lanes of the speeds of a tested sheet, the scale of the slot, and what is ahead after the slot. (The sizes are
// the sheet's, at hand by value: behind the reference they would be read anew at every queue, since values and plan bytes are stored between.)
#[derive(Clone, Copy)]
pub struct Pass<'a> {
    pub lanes: &'a SpeedLanes<'a>,
    pub sizes: Sizes,
    pub scale: Value,
    pub ahead: &'a [u64],
    pub ghost given: { Given width (sheet_of lanes.now.of) (sizes_of lanes.now.of) scale ahead.now },
    pub ghost sheets: { sizes ≡ sizes_of lanes.now.of },
}

// A queue of a row: its block and the line of that, and its last total.
#[derive(Clone, Copy)]
pub struct Queue<'a> {
    pub block: usize,
    pub line: Line<'a>,
    pub last: u32,
}

// The queues of a row that are left: block after block, and in each block as the last total rises. The next one is `queue`, or, where that
// has one more than the highest last total, the first one of the next block. (So a block's line is looked up once, when it is due, and no
// second queue is at hand while a caller works on one.)
#[derive(Clone, Copy)]
pub struct Queues<'a> {
    pub pass: &'a Pass<'a>,
    pub queue: Queue<'a>,
    pub ghost at: { At pass.now.lanes.now.of queue },
}

impl<'a> Pass<'a> {
    // The number of a queue: as far behind that of its block's first queue as its last total is above that one's.
    pub fn number(&self, queue: Queue) -> usize
        requires { IsQueue self.now.lanes.now.of queue }
        ensures { (result ≡ number_of (sizes_of self.now.lanes.now.of) queue.entry.block queue.entry.last) ×
            (result < (sizes_of self.now.lanes.now.of).queues) }
    {
        let line = queue.line;
        line.number as usize + (queue.last - line.lowest) as usize
    }

    // The first queue of a block.
    fn first_queue(&self, block: usize) -> Queue<'a>
        requires { block < (sizes_of self.now.lanes.now.of).after }
        ensures { IsQueue self.now.lanes.now.of result × (result.block ≡ block) ×
            (result.last ≡ lowest_of (sizes_of self.now.lanes.now.of).largest (sizes_of self.now.lanes.now.of).bound block) }
    {
        let line = self.lanes.line(block);
        Queue {
            block,
            line,
            last: line.lowest,
        }
    }

    // All the queues of a row.
    pub fn queues(&'a self) -> Queues<'a>
        ensures { (result.pass.now ≡ self.now) × (result.queue.block ≡ 0) ×
            (result.queue.last ≡ lowest_of (sizes_of self.now.lanes.now.of).largest (sizes_of self.now.lanes.now.of).bound 0) }
    {
        Queues {
            pass: self,
            queue: self.first_queue(0),
        }
    }
}

impl<'a> Iterator for Queues<'a> {
    type Item = Queue<'a>;

    ghost next_gives = { λ s r t. (t.pass.now ≡ s.pass.now) × MatchOption r
        (Ended (sizes_of s.pass.now.lanes.now.of) s.queue.block s.queue.last)
        (λ queue. IsQueue s.pass.now.lanes.now.of queue ×
        Next (sizes_of s.pass.now.lanes.now.of) s.queue.block s.queue.last queue.block queue.last ×
        (t.queue.block ≡ queue.block) × (t.queue.last ≡ suc queue.last)) };

    ghost remaining = { λ s. at_most (queues_left (sizes_of s.pass.now.lanes.now.of) s.queue.block s.queue.last) };

    fn next(&mut self) -> Option<Queue<'a>> {
        let pass = self.pass;
        let sizes = pass.sizes;
        let mut queue = self.queue;
        if sizes.bound as u32 * sizes.largest < queue.last {
            let block = queue.block + 1;
            if block == sizes.after {
                return None;
            }
            queue = pass.first_queue(block);
        }
        let next = Queue {
            last: queue.last + 1,
            ..queue
        };
        *self = Queues { pass, queue: next };
        Some(queue)
    }
}
