// The lanes of the speeds, the same for every slot: the speeds and their energies, and a line for each block of queues. A line has the
// number of the block's first queue, its last total, the place of the slowest speed that leads on, and for each speed the number of the
// queue after a slot at that speed.
ghost use Rattle.std.specs.Prelude.{◌≡◌, pred, ◌≤◌, length};
ghost use Rattle.model.specs.View.{view_of, speed_at, energy_at};
ghost use Rattle.model.specs.Queue.{queue_in, places_of};
ghost use Rattle.queues.specs.Blocks.{queue_with};
ghost use Rattle.slot.specs.Slot.{last_twice};
ghost use Rattle.rows.specs.Tables.{line_at};
ghost use Rattle.speed_lanes.specs.Lanes.{leads_on, slowest_in, lane_of, speed_line, SpeedTable};

use counts::Counts;
use model::Speed;
use queues::number;
use rows::{Block, Head, Lanes, Table, first_queue};
use sheets::Tested;
use slot::{after, bearable};

// The speeds of a sheet that has passed its tests, and the counts that number the queues.
#[derive(Clone, Copy)]
pub struct Speeds<'a> {
    pub counts: &'a Counts,
    pub tested: &'a Tested,
}

// The table of their lanes.
pub type SpeedLanes<'a> = Table<'a, Speeds<'a>>;

impl<'a> Speeds<'a> {
    // The speeds of the sheet, of which it is tested that they are few.
    fn speeds(&self) -> &'a [Speed]
        ensures speeds { result.now ≡ (view_of self.now.tested.now.sheet).speeds }
        ensures counted { length result.now ≡ self.now.tested.now.sheet.speed_count }
    {
        self.tested.sheet.speeds()
    }

    // Whether a speed leads on: it is at least w(1), and the queue after the slot is bearable.
    fn leads_on(&self, queue: [u32; 6], speed: u32) -> bool
        ensures { result ≡ leads_on self.now.tested.now.sizes.largest self.now.tested.now.sizes.bound
            (queue_in self.now.tested.now.sizes.bound queue) speed }
    {
        let sizes = self.tested.sizes;
        queue[0] <= speed
            && bearable(
                sizes.largest,
                sizes.bound - 1,
                after(sizes.bound, queue, speed),
            )
    }

    // The place of the slowest speed that leads on; the count of speeds where none does.
    fn slowest(&self, queue: [u32; 6]) -> u32
        ensures { result ≡ slowest_in self.now.tested.now.sizes.largest self.now.tested.now.sizes.bound
            (view_of self.now.tested.now.sheet) (queue_in self.now.tested.now.sizes.bound queue) }
    {
        let leading = |speed: &Speed| self.leads_on(queue, speed.speed);
        let place = self.speeds().iter().position(leading);
        place.unwrap_or(self.count()) as u32
    }

    // Where the lane of a speed begins, from this queue on: the number of the queue after the slot, 0 where the speed does not lead on.
    fn lane_of(&self, queue: [u32; 6], speed: u32) -> u32
        ensures { result ≡ lane_of self.now.tested.now.sizes.largest self.now.tested.now.sizes.bound
            (queue_in self.now.tested.now.sizes.bound queue) speed }
    {
        if !self.leads_on(queue, speed) {
            return 0;
        }
        let sizes = self.tested.sizes;
        let left = after(sizes.bound, queue, speed);
        number(self.counts, sizes.largest, sizes.bound - 1, left) as u32
    }
}

impl<'a> Lanes for Speeds<'a> {
    ghost column = { 9 };

    ghost count = { λ s. s.tested.now.sheet.speed_count };

    ghost blocks = { λ s. s.tested.now.sizes.after };

    ghost first = { λ s. speed_at (view_of s.tested.now.sheet) };

    ghost second = { λ s. energy_at (view_of s.tested.now.sheet) };

    ghost begins = { λ s b. places_of (last_twice (queue_with s.tested.now.sizes.largest (pred s.tested.now.sizes.bound) b)) };

    ghost line = { λ s. speed_line s.tested.now.sizes.largest s.tested.now.sizes.bound (view_of s.tested.now.sheet) };

    fn column(&self) -> usize {
        9
    }

    fn count(&self) -> usize {
        self.tested.sheet.speed_count as usize
    }

    fn blocks(&self) -> usize {
        self.tested.sizes.after
    }

    // A speed and its energy.
    fn pair(&self, place: usize) -> (u32, u32) {
        let speed = self.speeds()[place];
        (speed.speed, speed.energy)
    }

    fn first_queue(&self, block: usize) -> [u32; 6] {
        let sizes = self.tested.sizes;
        first_queue(self.counts, sizes.largest, sizes.bound, block)
    }

    fn head(&self, block: Block) -> Head {
        let sizes = self.tested.sizes;
        let number = number(self.counts, sizes.largest, sizes.bound, block.first);
        Head {
            number: number as u32,
            lowest: block.first[sizes.bound - 1],
            third: self.slowest(block.first),
        }
    }

    // The number of the queue after a slot at a speed, from the block's first queue on.
    fn lane(&self, block: Block, place: usize) -> u32 {
        self.lane_of(block.first, self.speeds()[place].speed)
    }
}

// Fills memory with the table of a tested sheet. (Its own function, since it says by the sheet alone what the memory then holds,
// SpeedTable; Table::fill says it of whichever lanes it is given.)
pub fn fill_table<'a>(
    counts: &'a Counts,
    tested: &'a Tested,
    numbers: &'a mut [u32],
) -> SpeedLanes<'a>
    requires { line_at 9 tested.now.sheet.speed_count tested.now.sizes.after ≤ length numbers.old }
    ensures { (result.of.tested.now ≡ tested.now) × SpeedTable tested.now.sizes.largest tested.now.sizes.bound (view_of tested.now.sheet)
        result.numbers.now }
{
    Table::fill(Speeds { counts, tested }, numbers)
}
