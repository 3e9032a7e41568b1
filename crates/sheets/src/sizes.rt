// What is worked out once for a sheet, and handed on to whatever needs it: the planner, its passes and the stepper.
ghost use Rattle.model.specs.View.{view_of};
ghost use Rattle.sheets.specs.Sizes.{Sized};

use counts::Counts;
use limits::greatest_of;
use queues::queue_count;
use ranges::Ranged;

// The largest speed M, the greatest energy, the deadline bound D, the number of queues N, and how many queues there are after a slot,
// before an arrival: those of one position fewer, since the last total then stands twice. All queues come in as many blocks as that; the
// queues after a slot come in `blocks` blocks.
#[derive(Clone, Copy)]
pub struct Sizes {
    pub largest: u32,
    pub energy: u32,
    pub bound: usize,
    pub queues: usize,
    pub after: usize,
    pub blocks: usize,
}

// The sizes of a sheet.
pub fn sizes_of(counts: &Counts, sheet: Ranged) -> Sizes
    ensures { Sized (view_of sheet.sheet) result }
{
    let greatest = greatest_of(sheet);
    let largest = greatest.speed;
    let bound = sheet.sheet.bound as usize;
    Sizes {
        largest,
        energy: greatest.energy,
        bound,
        queues: queue_count(counts, largest, bound),
        after: queue_count(counts, largest, bound.saturating_sub(1)),
        blocks: queue_count(counts, largest, bound.saturating_sub(2)),
    }
}
