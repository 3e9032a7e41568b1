// Walks, for a few sizes, every list of totals up to one more than is bearable at each position, in dictionary order. It counts the
// bearable ones, and among these the ones whose number is how many bearable ones came before, and gives the queue back.
#![tactic(auto)]

ghost use Rattle.std.specs.Prelude.{◌+◌, ◌≤◌, ◌<◌};
ghost use Rattle.queues.specs.Order.{Ranges, Numbered};

use counts::Counts;
use std::io;

// How many bearable queues were met, and how many of them stood at their numbers.
#[derive(Clone, Copy)]
struct Walked {
    queues: u64,
    right: u64,
}

// A size to walk: the largest speed and the deadline bound of an accepted sheet.
#[derive(Clone, Copy)]
struct Size<'a> {
    counts: &'a Counts,
    largest: u32,
    bound: usize,
    ghost ranges: { Ranges largest bound },
}

impl Size<'_> {
    // Whether a bearable queue has this number, and the number gives it back.
    fn stands_at(&self, queue: [u32; 6], place: u64) -> bool
        requires { Numbered self.now.largest self.now.bound queue }
    {
        let found = queues::number(self.counts, self.largest, self.bound, queue);
        found as u64 == place
            && queues::queue_at(self.counts, self.largest, self.bound, found) == queue
    }

    // What was met, with one list of totals more.
    fn met(&self, queue: [u32; 6], walked: Walked) -> Walked
        requires { (walked.queues < 1000000) × (walked.right ≤ walked.queues) }
        ensures { (result.queues ≤ walked.queues + 1) × (result.right ≤ result.queues) }
    {
        if !slot::bearable_in(self.largest, self.bound, queue) {
            return walked;
        }
        let right = walked.right + u64::from(self.stands_at(queue, walked.queues));
        Walked {
            queues: walked.queues + 1,
            right,
        }
    }

    // The list of totals after this one in dictionary order, if there is one.
    fn next(&self, mut queue: [u32; 6]) -> Option<[u32; 6]> {
        for place in (0..self.bound).rev() {
            if queue[place] <= (place as u32 + 1) * self.largest {
                queue[place] += 1;
                return Some(queue);
            }
            queue[place] = 0;
        }
        None
    }

    // All lists of totals, or a million of them: the sizes below have fewer.
    fn walk(&self) -> Walked {
        let mut queue = [0; 6];
        let mut walked = Walked {
            queues: 0,
            right: 0,
        };
        for _turn in 0..1000000u64 {
            walked = self.met(queue, walked);
            let Some(next) = self.next(queue) else { break };
            queue = next;
        }
        walked
    }

    // A line for this size.
    fn print(&self, rt: &impl Print) -> io::Result<()> {
        let (largest, bound) = (self.largest, self.bound);
        let Walked { queues, right } = self.walk();
        let count = queues::queue_count(self.counts, largest, bound);
        println!(rt; "M {largest} D {bound}: {queues} queues, {right} at their numbers, N {count}")
    }
}

fn main(rt: HostRuntime) -> io::Result<()> {
    let counts = &Counts::new();
    for (largest, bound) in [(2, 3), (8, 2), (3, 5), (2, 6)] {
        let size = Size {
            counts,
            largest,
            bound,
        };
        size.print(&rt)?;
    }
    Ok(())
}
