// The row of a slot in a lent plan, and the look-up of a plan byte by a queue.
ghost use Rattle.std.specs.Prelude.{◌≡◌, T, take, drop};
ghost use Rattle.model.specs.Queue.{queue_in, bearable, number_of};
ghost use Rattle.sheets.specs.Sizes.{Measured};
ghost use Rattle.layout.specs.Places.{HasRow, place_in, byte_in};

use crate::rooms::place;
use counts::Counts;
use queues::number;
use sheets::Sizes;

// The plan bytes of a slot: one for each queue, in the order of their numbers.
pub fn row_of(plan: &[u8], queues: usize, slot: u32) -> &[u8]
    requires { HasRow plan.now queues slot }
    ensures { result.now ≡ take queues (drop (place_in queues slot 0) plan.now) }
{
    let first = place(queues, slot, 0);
    &plan[first..first + queues]
}

// The plan byte of a slot and a bearable queue, for any measured sizes: no sheet is asked for.
pub fn byte_of_queue(counts: &Counts, sizes: Sizes, plan: &[u8], slot: u32, queue: [u32; 6]) -> u32
    requires { Measured sizes × HasRow plan.now sizes.queues slot × T (bearable sizes.largest (queue_in sizes.bound queue)) }
    ensures { result ≡ byte_in sizes.queues plan.now slot (number_of sizes.largest (queue_in sizes.bound queue)) }
{
    let row = row_of(plan, sizes.queues, slot);
    row[number(counts, sizes.largest, sizes.bound, queue)] as u32
}
