// The first queue of a block of queues.
ghost use Rattle.std.specs.Prelude.{◌≡◌, pred, ◌<◌};
ghost use Rattle.model.specs.Queue.{places_of, queue_count};
ghost use Rattle.queues.specs.Blocks.{queue_with};
ghost use Rattle.queues.specs.Order.{Ranges};
ghost use Rattle.slot.specs.Slot.{last_twice};

use counts::Counts;
use queues::queue_at;
use slot::total;

// The first queue of a block of queues of so many positions: the totals that they share, with the last of these once more.
pub fn first_queue(counts: &Counts, largest: u32, positions: usize, block: usize) -> [u32; 6]
    requires { Ranges largest positions × (block < queue_count largest (pred positions)) }
    ensures { result ≡ places_of (last_twice (queue_with largest (pred positions) block)) }
{
    let fewer = positions.saturating_sub(1);
    let mut queue = queue_at(counts, largest, fewer, block);
    queue[fewer] = total(queue, fewer);
    queue
}
