// What is ahead of one queue after a slot: the weighted sum over the entries.
ghost use Rattle.std.specs.Prelude.{◌≡◌, ◌<◌};
ghost use Rattle.model.specs.View.{view_of};
ghost use Rattle.ahead.specs.Pass.{Stepped};

use crate::pass::Pass;
use rows::Line;
use value::Value;

// A queue after a slot: the line of its block, how many steps on it is from the block's first queue, and how far a lane has risen by then,
// before what its entry has lifted the last total but one is taken off.
#[derive(Clone, Copy)]
pub struct Step<'a> {
    pub pass: Pass<'a>,
    pub block: usize,
    pub line: Line<'a>,
    pub steps: u32,
    pub far: u32,
    pub ghost at: { Stepped (view_of pass.lanes.now.of.tested.now.sheet) pass.lanes.now.of.tested.now.sizes block steps far
        line.number line.lowest line.third line.lanes.now },
}

impl<'a> Step<'a> {
    ghost use Rattle.ahead.specs.Steps.{sheet_of, ahead_by, number_of, value_with, BeforeEnd};

    // What the row has for the queue with the arrival of the entry at a place, where every arrival leads to a bearable queue. The lane has
    // then risen by `far`, less what its entry lifts the last total but one in each step.
    fn value_on(&self, place: usize) -> Value
        requires { BeforeEnd self.now × (place < (sheet_of self.now.pass).job_count) }
        ensures { result ≡ value_with self.now place }
    {
        let lifted = self.steps * self.pass.lanes.second(place);
        let on = self.line.lanes[place] + self.far - lifted;
        value::load(self.pass.values, self.pass.next + on as usize)
    }

    // The weighted sum over the entries; none once a value is.
    fn sum_of(&self) -> Value
        requires { BeforeEnd self.now }
        ensures { result ≡ ahead_by self.now.pass (number_of self.now) }
    {
        let mut sum = Value::from(0);
        for place in 0..self.line.lanes.len() {
            let value = self.value_on(place);
            if value.is_none() {
                return Value::NONE;
            }
            sum = sum.plus_times(self.pass.lanes.first(place), value);
        }
        sum
    }

    // What is ahead: none where an arrival leads to a queue that is not bearable.
    pub fn sum(&self) -> Value
        ensures { result ≡ ahead_by self.now.pass (number_of self.now) }
    {
        if self.line.third <= self.steps {
            return Value::NONE;
        }
        self.sum_of()
    }
}
