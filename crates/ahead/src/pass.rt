// What is ahead of every queue after a slot, block by block.
ghost use Rattle.std.specs.Prelude.{◌≡◌, suc, pred, ◌+◌, ◌*◌, ◌≤◌, ◌<◌, length};
ghost use Rattle.model.specs.View.{view_of};
ghost use Rattle.queues.specs.Blocks.{InBlock};
ghost use Rattle.buffers.specs.Fills.{Fills, FillsWhere};
ghost use Rattle.value.specs.Narrow.{width};
ghost use Rattle.model.specs.Width.{value_in};
ghost use Rattle.ahead.specs.Pass.{Given};

use crate::step::Step;
use entry_lanes::EntryLanes;
use sheets::Sizes;

// What the pass goes by: the lanes of the entries, and the row of values that begins at place `next`.
#[derive(Clone, Copy)]
pub struct Pass<'a> {
    pub lanes: &'a EntryLanes<'a>,
    pub next: usize,
    pub values: &'a [u64],
    pub ghost given: { Given width (view_of lanes.now.of.tested.now.sheet) lanes.now.of.tested.now.sizes next values.now },
}

impl<'a> Pass<'a> {
    ghost use Rattle.ahead.specs.Steps.{sizes_of, ahead_by};

    // The sizes of the sheet.
    fn sizes(&self) -> Sizes
        ensures { result ≡ sizes_of self.now }
    {
        let lanes = self.lanes;
        let tested = lanes.of.tested;
        tested.sizes
    }

    // The queues of a block.
    fn fill_block(&self, block: usize, ahead: &mut [u64])
        requires { (block < (sizes_of self.now).blocks) × ((sizes_of self.now).after * width.places ≤ length ahead.old) }
        ensures { FillsWhere width.places (value_in width) (ahead_by self.now) 0
            (InBlock (sizes_of self.now).largest (pred (sizes_of self.now).bound) block
            (suc (pred (sizes_of self.now).bound * (sizes_of self.now).largest))) ahead.old ahead.new }
    {
        let sizes = self.sizes();
        let most = sizes.bound as u32 * sizes.largest;
        let line = self.lanes.line(block);
        let mut far = 0;
        for steps in 0..most - sizes.largest - line.lowest + 1 {
            let step = Step {
                pass: *self,
                block,
                line,
                steps,
                far,
            };
            value::store(ahead, (line.number + steps) as usize, step.sum());
            far += most + 1 - line.lowest - steps;
        }
    }

    // What is ahead of every queue after the slot, from the buffer's first place on.
    pub fn fill(&self, ahead: &mut [u64])
        requires { (sizes_of self.now).after * width.places ≤ length ahead.old }
        ensures { Fills width.places (value_in width) (ahead_by self.now) 0 (sizes_of self.now).after ahead.old ahead.new }
    {
        for block in 0..self.sizes().blocks {
            self.fill_block(block, ahead);
        }
    }
}
