// The number of a bearable queue, which is its place in dictionary order, by sums of counts; and the queue of a number. A queue stands in
// six places, of which the first D are used.
//
// `largest` is the largest speed M, `bound` the deadline bound D. Every function here is internal: its callers have tested the sheet, so
// that M is from 1 to 8 and D at most 6.
#![tactic(auto)]

ghost use Rattle.std.specs.Prelude.{◌≡◌, ℕ, suc, ◌+◌, ◌-◌, ◌≤◌, ◌<◌, [], get_or};
ghost use Rattle.process.specs.Sums.{sum};
ghost use Rattle.model.specs.Queue.{queue_in, places_of, bearable_queues, queue_count, number_of, continuation_count};
ghost use Rattle.counts.specs.Counts.{InTable};
ghost use Rattle.queues.specs.Order.{Ranges, Numbered, earlier_at, Leads, Follows};

use counts::Counts;
use std::ops::Range;

// The sum of the counts of these slacks.
fn sum_of_counts(counts: &Counts, largest: u32, left: usize, slacks: Range<u32>) -> usize
    requires { (slack : ℕ) → slacks.start ≤ slack → slack < slacks.end → InTable largest left slack }
    ensures { result ≡ sum (λ j. continuation_count largest left (slacks.start + j)) (slacks.end - slacks.start) }
{
    slacks.map(|slack| counts.count(largest, left, slack)).sum()
}

// N, the number of bearable queues.
pub fn queue_count(counts: &Counts, largest: u32, bound: usize) -> usize
    requires { Ranges largest bound }
    ensures { result ≡ queue_count largest bound }
{
    if bound == 0 {
        return 1;
    }
    sum_of_counts(counts, largest, bound - 1, 0..largest + 1)
}

// How many bearable queues agree with this one up to w(u) and have less than it at w(u+1): their slacks there are those above its own,
// up to the slack that w(u) would have there.
fn earlier(counts: &Counts, largest: u32, bound: usize, queue: [u32; 6], u: usize) -> usize
    requires { (u < bound) × Numbered largest bound queue }
    ensures { result ≡ earlier_at largest (queue_in bound queue) u }
{
    let most = (u as u32 + 1) * largest;
    let own = most - queue[u];
    let first = most - slot::total(queue, u);
    sum_of_counts(counts, largest, bound - 1 - u, own + 1..first + 1)
}

// The number of a bearable queue.
pub fn number(counts: &Counts, largest: u32, bound: usize, queue: [u32; 6]) -> usize
    requires { Numbered largest bound queue }
    ensures { result ≡ number_of largest (queue_in bound queue) }
{
    (0..bound)
        .map(|u| earlier(counts, largest, bound, queue, u))
        .sum()
}

// A queue that is being found: its last total so far, the slack there, and its place in the list of all that may follow.
#[derive(Clone, Copy)]
struct Found {
    total: u32,
    slack: u32,
    place: usize,
}

impl Found {
    // With the next total: the first, of those that may come next, whose queues do not all stand before the place.
    fn next(mut self, counts: &Counts, largest: u32, left: usize) -> Self
        requires { Leads largest (suc left) self.total self.slack self.place }
        ensures { Follows largest left self.total self.slack self.place result.total result.slack result.place }
    {
        self.slack += largest;
        // no `for` over the slacks, though it goes down them: this search ends before they do, and a `for` needs an answer for its end
        loop {
            let here = counts.count(largest, left, self.slack);
            if self.place < here {
                return self;
            }
            self.place -= here;
            self.total += 1;
            self.slack -= 1;
        }
    }
}

// The queue of a number.
pub fn queue_at(counts: &Counts, largest: u32, bound: usize, number: usize) -> [u32; 6]
    requires { Ranges largest bound × (number < queue_count largest bound) }
    ensures { result ≡ places_of (get_or (bearable_queues largest bound) number []) }
{
    let mut queue = [0; 6];
    let mut found = Found {
        total: 0,
        slack: 0,
        place: number,
    };
    // by the place, which says too how many positions are left
    for fixed in 0..bound {
        found = found.next(counts, largest, bound - 1 - fixed);
        queue[fixed] = found.total;
    }
    queue
}
