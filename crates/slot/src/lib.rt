// What a slot does to a queue, for the planner and the stepper: the queue after the slot, the queue with an arrival, both at once, and
// whether a queue is bearable. A queue stands in six places, of which the first D are used.
//
// `largest` is the largest speed M, `bound` the deadline bound D. Every function here is internal: its callers have tested the sheet, so
// that M is from 1 to 8 and D at most 6. No struct holds the two beside the queue: 01 fixes that a state has the six places alone and the
// sheet the two, so that each call would put one together for each queue that it reads.
#![tactic(auto)]

ghost use Rattle.std.specs.Prelude.{◌≡◌, ◌+◌, ◌-◌, ◌≤◌, ◌<◌};
ghost use Rattle.model.specs.Queue.{total, queue_in, places_of, bearable_at, bearable, unused_zero, bearable_in, run, arrive, one_slot};
ghost use Rattle.slot.specs.Slot.{Small};

use std::array;

// w(u); w(0), the work that should be done by now, is 0.
pub fn total(queue: [u32; 6], u: usize) -> u32
    requires { u ≤ 6 }
    ensures { result ≡ total queue u }
{
    if u == 0 { 0 } else { queue[u - 1] }
}

// The total in one place after a slot: what stood in the next place, or in the last one, less the speed.
fn total_after(bound: usize, queue: [u32; 6], speed: u32, place: usize) -> u32
    requires { (bound ≤ 6) × (place < 6) }
    ensures { result ≡ total (run (queue_in bound queue) speed) (place + 1) }
{
    if bound <= place {
        return 0;
    }
    let next = (place + 1).min(bound - 1);
    queue[next].saturating_sub(speed)
}

// The queue after a slot at this speed.
pub fn after(bound: usize, queue: [u32; 6], speed: u32) -> [u32; 6]
    requires { bound ≤ 6 }
    ensures { result ≡ places_of (run (queue_in bound queue) speed) }
{
    array::from_fn(|place| total_after(bound, queue, speed, place))
}

// The total in one place with a job that has arrived: larger by its size from its deadline on.
fn total_with(bound: usize, queue: [u32; 6], size: u32, deadline: u32, place: usize) -> u32
    requires { (bound ≤ 6) × (place < 6) × (size ≤ 255) × Small (queue_in bound queue) }
    ensures { result ≡ total (arrive (queue_in bound queue) size deadline) (place + 1) }
{
    if bound <= place {
        0
    } else if place as u32 + 1 < deadline {
        queue[place]
    } else {
        queue[place] + size
    }
}

// The queue with a job of this size and deadline.
pub fn arrive(bound: usize, queue: [u32; 6], size: u32, deadline: u32) -> [u32; 6]
    requires { (bound ≤ 6) × (size ≤ 255) × Small (queue_in bound queue) }
    ensures { result ≡ places_of (arrive (queue_in bound queue) size deadline) }
{
    array::from_fn(|place| total_with(bound, queue, size, deadline, place))
}

// The queue after a slot at this speed and the arrival of a job.
pub fn one_slot(bound: usize, queue: [u32; 6], speed: u32, size: u32, deadline: u32) -> [u32; 6]
    requires { (bound ≤ 6) × (size ≤ 255) × Small (queue_in bound queue) }
    ensures { result ≡ places_of (one_slot (queue_in bound queue) speed size deadline) }
{
    let left = after(bound, queue, speed);
    arrive(bound, left, size, deadline)
}

// Whether w(u+1) is no less than w(u) and at most u+1 times the largest speed.
fn bearable_at(largest: u32, queue: [u32; 6], u: usize) -> bool
    requires { (largest ≤ 8) × (u < 6) }
    ensures { result ≡ bearable_at largest queue u }
{
    let here = queue[u];
    total(queue, u) <= here && here <= (u as u32 + 1) * largest
}

// Whether what stands in the first places is a bearable queue.
pub fn bearable(largest: u32, bound: usize, queue: [u32; 6]) -> bool
    requires { (largest ≤ 8) × (bound ≤ 6) }
    ensures { result ≡ bearable largest (queue_in bound queue) }
{
    (0..bound).all(|u| bearable_at(largest, queue, u))
}

// Whether every place past the first ones is zero.
fn unused_zero(bound: usize, queue: [u32; 6]) -> bool
    requires { bound ≤ 6 }
    ensures { result ≡ unused_zero bound queue }
{
    queue[bound..].iter().all(|total| *total == 0)
}

// Whether what stands in the six places is a bearable queue, the unused places zero.
#[tactic(auto, unfolding(model::specs::Queue::bearable_in))]
pub fn bearable_in(largest: u32, bound: usize, queue: [u32; 6]) -> bool
    requires { (largest ≤ 8) × (bound ≤ 6) }
    ensures { result ≡ bearable_in largest bound queue }
{
    bearable(largest, bound, queue) && unused_zero(bound, queue)
}
