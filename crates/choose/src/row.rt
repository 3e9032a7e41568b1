// The row of a slot: the value and the plan byte of each queue.
ghost use Rattle.std.specs.Prelude.{◌+◌, ◌*◌, ◌≤◌, length};
ghost use Rattle.value.specs.Narrow.{width};
ghost use Rattle.choose.specs.Pass.{LeftAll, sheet_of, sizes_of};

use crate::pass::Pass;

impl<'a> Pass<'a> {
    // The row whose values begin at place `this` and whose plan bytes begin at place `row`.
    pub fn fill(&self, this: usize, row: usize, values: &mut [u64], plan: &mut [u8])
        requires { ((this + (sizes_of self.now.lanes.now.of).queues) * width.places ≤ length values.old) ×
            (row + (sizes_of self.now.lanes.now.of).queues ≤ length plan.old) }
        ensures { LeftAll width (sheet_of self.now.lanes.now.of) (sizes_of self.now.lanes.now.of) self.now.scale self.now.ahead.now this row
            values.old plan.old values.new plan.new }
    {
        for queue in self.queues() {
            let number = self.number(queue);
            let best = self.choose(queue);
            value::store(values, this + number, best.value);
            plan[row + number] = best.speed as u8;
        }
    }
}
