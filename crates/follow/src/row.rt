// The row of a slot: what each queue's plan byte costs.
ghost use Rattle.std.specs.Prelude.{◌+◌, ◌*◌, ◌≤◌, length};
ghost use Rattle.model.specs.Width.{value_in};
ghost use Rattle.buffers.specs.Fills.{Fills};
ghost use Rattle.value.specs.Narrow.{width};
ghost use Rattle.choose.specs.Pass.{sheet_of, sizes_of};
ghost use Rattle.follow.specs.Pass.{ArePlaces, cost_left};

use crate::cost::byte_cost;
use choose::Pass;

// The row whose values begin at place `this`, by the plan bytes that begin at place `row`.
pub fn fill(
    pass: &Pass,
    speed_places: [u32; 9],
    this: usize,
    row: usize,
    plan: &[u8],
    values: &mut [u64],
)
    requires { ArePlaces (sheet_of pass.now.lanes.now.of) speed_places ×
        ((this + (sizes_of pass.now.lanes.now.of).queues) * width.places ≤ length values.old) ×
        (row + (sizes_of pass.now.lanes.now.of).queues ≤ length plan.now) }
    ensures { Fills width.places (value_in width)
        (cost_left width (sheet_of pass.now.lanes.now.of) (sizes_of pass.now.lanes.now.of) pass.now.ahead.now pass.now.scale plan.now row)
        this (sizes_of pass.now.lanes.now.of).queues values.old values.new }
{
    for queue in pass.queues() {
        let number = pass.number(queue);
        let cost = byte_cost(pass, speed_places, queue, plan[row + number]);
        value::store(values, this + number, cost);
    }
}
