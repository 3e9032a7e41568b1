// The lanes of the entries, the same for every slot: the weight of each entry and how much it lifts the last total but one, and a line for
// each block of queues after a slot. A line has the number of the block's first queue, its last total, for how many steps every arrival
// leads to a bearable queue, and for each entry the number of the first queue with its arrival.
ghost use Rattle.std.specs.Prelude.{◌≡◌, ℕ, pred, ◌*◌, ◌≤◌, ◌<◌, length, get_or};
ghost use Rattle.model.specs.View.{view_of, zero_job, weight_at, size_at, deadline_at};
ghost use Rattle.model.specs.Queue.{total, queue_in, places_of};
ghost use Rattle.slot.specs.Slot.{Small};
ghost use Rattle.rows.specs.Tables.{line_at};
ghost use Rattle.entry_lanes.specs.Lanes.{first_after, lift_of, steps_of, steps_to, lane_of, entry_line, EntryTable};

use counts::Counts;
use model::Job;
use queues::number;
use rows::{Block, Head, Lanes, Table, first_queue};
use sheets::Tested;
use slot::{arrive, bearable, total};

// The entries of a sheet that has passed its tests, and the counts that number the queues.
#[derive(Clone, Copy)]
pub struct Entries<'a> {
    pub counts: &'a Counts,
    pub tested: &'a Tested,
}

// The table of their lanes.
pub type EntryLanes<'a> = Table<'a, Entries<'a>>;

// How much an entry lifts the last total but one: by its size, where it is due before the deadline bound.
fn lift_of(bound: usize, job: Job) -> u32
    requires { 1 ≤ bound }
    ensures { result ≡ lift_of bound job.size job.deadline }
{
    if (job.deadline as usize) < bound {
        job.size
    } else {
        0
    }
}

impl<'a> Entries<'a> {
    // The jobs of the sheet, of which it is tested that they are few and their sizes small.
    fn jobs(&self) -> &'a [Job]
        ensures jobs { result.now ≡ (view_of self.now.tested.now.sheet).jobs }
        ensures counted { length result.now ≡ self.now.tested.now.sheet.job_count }
        ensures small { (j : ℕ) → j < self.now.tested.now.sheet.job_count → (get_or result.now j zero_job).size ≤ 255 }
    {
        self.tested.sheet.jobs()
    }

    // For how many steps a queue stays bearable when its last two totals rise by one in each step.
    fn steps_of(&self, queue: [u32; 6]) -> u32
        ensures { result ≡ steps_of self.now.tested.now.sizes.largest self.now.tested.now.sizes.bound
            (queue_in self.now.tested.now.sizes.bound queue) }
    {
        let sizes = self.tested.sizes;
        if !bearable(sizes.largest, sizes.bound, queue) {
            return 0;
        }
        let most = sizes.bound as u32 * sizes.largest;
        let before = most - sizes.largest - total(queue, sizes.bound - 1);
        before.min(most - total(queue, sizes.bound)) + 1
    }

    // From a queue after a slot on, for how many steps every arrival leads to a bearable queue.
    fn steps(&self, queue: [u32; 6]) -> u32
        requires { Small (queue_in self.now.tested.now.sizes.bound queue) ×
            (total (queue_in self.now.tested.now.sizes.bound queue) self.now.tested.now.sizes.bound ≤
            pred self.now.tested.now.sizes.bound * self.now.tested.now.sizes.largest) }
        ensures { result ≡ steps_to self.now.tested.now.sizes.largest self.now.tested.now.sizes.bound
            (view_of self.now.tested.now.sheet) (queue_in self.now.tested.now.sizes.bound queue) self.now.tested.now.sheet.job_count }
    {
        let sizes = self.tested.sizes;
        let most = sizes.bound as u32 * sizes.largest - sizes.largest;
        // a `for`, since a `fold` with this body reads no better
        let mut least = most - total(queue, sizes.bound) + 1;
        for job in self.jobs() {
            let joined = arrive(sizes.bound, queue, job.size, job.deadline);
            least = least.min(self.steps_of(joined));
        }
        least
    }

    // Where the lane of an entry begins: the number of the queue with its arrival, 0 where that is not bearable.
    fn lane_of(&self, queue: [u32; 6]) -> u32
        ensures { result ≡ lane_of self.now.tested.now.sizes.largest (queue_in self.now.tested.now.sizes.bound queue) }
    {
        let sizes = self.tested.sizes;
        if !bearable(sizes.largest, sizes.bound, queue) {
            return 0;
        }
        number(self.counts, sizes.largest, sizes.bound, queue) as u32
    }
}

impl<'a> Lanes for Entries<'a> {
    ghost column = { 32 };

    ghost count = { λ s. s.tested.now.sheet.job_count };

    ghost blocks = { λ s. s.tested.now.sizes.blocks };

    ghost first = { λ s. weight_at (view_of s.tested.now.sheet) };

    ghost second = { λ s j. lift_of s.tested.now.sizes.bound (size_at (view_of s.tested.now.sheet) j)
        (deadline_at (view_of s.tested.now.sheet) j) };

    ghost begins = { λ s b. places_of (first_after s.tested.now.sizes.largest s.tested.now.sizes.bound b) };

    ghost line = { λ s. entry_line s.tested.now.sizes.largest s.tested.now.sizes.bound (view_of s.tested.now.sheet) };

    fn column(&self) -> usize {
        32
    }

    fn count(&self) -> usize {
        self.tested.sheet.job_count as usize
    }

    fn blocks(&self) -> usize {
        self.tested.sizes.blocks
    }

    // The weight of an entry, and how much it lifts.
    fn pair(&self, place: usize) -> (u32, u32) {
        let job = self.jobs()[place];
        (job.weight, lift_of(self.tested.sizes.bound, job))
    }

    // The first queue of a block of queues after a slot: the last total stands twice.
    fn first_queue(&self, block: usize) -> [u32; 6] {
        let last = self.tested.sizes.bound - 1;
        let mut queue = first_queue(self.counts, self.tested.sizes.largest, last, block);
        queue[last] = total(queue, last);
        queue
    }

    fn head(&self, block: Block) -> Head {
        let sizes = self.tested.sizes;
        let number = number(self.counts, sizes.largest, sizes.bound - 1, block.first);
        Head {
            number: number as u32,
            lowest: block.first[sizes.bound - 1],
            third: self.steps(block.first),
        }
    }

    // The number of the block's first queue with the arrival of an entry.
    fn lane(&self, block: Block, place: usize) -> u32 {
        let job = self.jobs()[place];
        self.lane_of(arrive(self.tested.sizes.bound, block.first, job.size, job.deadline))
    }
}

// Fills memory with the table of a tested sheet. (Its own function, since it says by the sheet alone what the memory then holds,
// EntryTable; Table::fill says it of whichever lanes it is given.)
pub fn fill_table<'a>(
    counts: &'a Counts,
    tested: &'a Tested,
    numbers: &'a mut [u32],
) -> EntryLanes<'a>
    requires { line_at 32 tested.now.sheet.job_count tested.now.sizes.blocks ≤ length numbers.old }
    ensures { (result.of.tested.now ≡ tested.now) × EntryTable tested.now.sizes.largest tested.now.sizes.bound (view_of tested.now.sheet)
        result.numbers.now }
{
    Table::fill(Entries { counts, tested }, numbers)
}
