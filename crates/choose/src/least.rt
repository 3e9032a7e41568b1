// The least over the speeds in one queue.
ghost use Rattle.std.specs.Prelude.{◌≡◌, ◌-◌, ◌≤◌, ◌<◌};
ghost use Rattle.value.specs.Narrow.{width};
ghost use Rattle.choose.specs.Choice.{cost_at, least_in, IsChoice, IsBetter};
ghost use Rattle.choose.specs.Pass.{IsQueue, queue_of, slowest_of, sheet_of, sizes_of};

use crate::pass::{Pass, Queue};
use value::Value;

// The speed of a queue that has none: 01 fixes the byte.
const NO_SPEED: u32 = 255;

// The least so far: a speed and what it costs; 255 and none where there is no speed yet.
#[derive(Clone, Copy)]
pub struct Chosen {
    pub speed: u32,
    pub value: Value,
}

impl Chosen {
    // The least so far and one speed more. Speeds come in rising order, so that where two cost the same the slower one stays.
    fn better(self, speed: u32, cost: Value) -> Chosen
        ensures { IsBetter self.speed self.value speed cost result.speed result.value }
    {
        if cost.less_than(self.value) {
            Chosen { speed, value: cost }
        } else {
            self
        }
    }
}

impl<'a> Pass<'a> {
    // What a speed costs in a queue: its scaled energy and what is ahead after it, none past the end of its lane. The lane rises with the
    // last total once that is above the speed.
    pub fn cost(&self, queue: Queue, place: usize) -> Value
        requires { IsQueue self.now.lanes.now.of queue ×
            (slowest_of (sizes_of self.now.lanes.now.of) (sheet_of self.now.lanes.now.of) queue.block ≤ place) ×
            (place < (sheet_of self.now.lanes.now.of).speed_count) }
        ensures { result ≡ cost_at width (sizes_of self.now.lanes.now.of).largest (sizes_of self.now.lanes.now.of).bound
            (sheet_of self.now.lanes.now.of) self.now.ahead.now self.now.scale (queue_of (sizes_of self.now.lanes.now.of) queue.entry.block queue.entry.last) place }
    {
        let lanes = self.lanes;
        let sizes = self.sizes;
        let line = queue.line;
        let speed = lanes.first(place);
        if (sizes.bound as u32 - 1) * sizes.largest + speed < queue.last {
            return Value::NONE;
        }
        let on = queue.last.saturating_sub(speed.max(line.lowest));
        let rest = value::load(self.ahead, line.lanes[place] as usize + on as usize);
        rest.plus_times(lanes.second(place), self.scale)
    }

    // The least over the speeds in a queue.
    pub fn choose(&self, queue: Queue) -> Chosen
        requires { IsQueue self.now.lanes.now.of queue }
        ensures { IsChoice (least_in width (sizes_of self.now.lanes.now.of).largest (sizes_of self.now.lanes.now.of).bound
            (sheet_of self.now.lanes.now.of) self.now.ahead.now self.now.scale (queue_of (sizes_of self.now.lanes.now.of) queue.entry.block queue.entry.last)) result.speed result.value }
    {
        let mut best = Chosen {
            speed: NO_SPEED,
            value: Value::NONE,
        };
        let lanes = self.lanes;
        let slowest = queue.line.third as usize;
        for place in slowest..queue.line.lanes.len() {
            best = best.better(lanes.first(place), self.cost(queue, place));
        }
        best
    }
}
