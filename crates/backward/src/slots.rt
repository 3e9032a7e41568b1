// The end row, and the slots of a sheet from the last one back: the walk that the planner's rows and the rows of prices share.
ghost use Rattle.std.specs.Prelude.{◌≡◌, suc, ◌-◌, ◌^◌, ◌≤◌, ◌<◌, length, MatchOption};
ghost use Rattle.std.specs.Iterator.{at_most};
ghost use Rattle.std.proofs.Math.Option.{some};
ghost use Rattle.model.specs.View.{view_of, W};
ghost use Rattle.model.specs.Plan.{value_places};
ghost use Rattle.value.specs.Narrow.{width};
ghost use Rattle.backward.specs.Passes.{Prepared, Passed, SlotRows, EndRow};

use layout::place;
use limits::weights;
use sheets::Tested;
use value::Value;

// A slot as it is planned: how many slots are left after it, the places where its row of values, the next slot's row of values and its row
// of the plan begin, and W to the power of the slots left, this one counted.
#[derive(Clone, Copy)]
pub struct Slot {
    pub left: u32,
    pub this: usize,
    pub next: usize,
    pub row: usize,
    pub scale: Value,
}

// A tested sheet, accepted by the limit of a value, with its sizes: all that a walk over its slots goes by.
#[derive(Clone, Copy)]
pub struct Walk<'a> {
    pub tested: &'a Tested,
    pub ghost prepared: { Prepared width (view_of tested.now.sheet) tested.now.sizes },
}

// The slots of a sheet that are left, from the last one back, and W to the power of those passed.
#[derive(Clone, Copy)]
pub struct Slots<'a> {
    pub walk: Walk<'a>,
    pub weight_sum: u32,
    pub left: u32,
    pub scale: Value,
    pub ghost passed: { Passed (view_of walk.tested.now.sheet) weight_sum left scale },
}

impl<'a> Walk<'a> {
    // The end row: after the last slot remaining work costs nothing.
    pub fn fill_end(&self, values: &mut [u64])
        requires { value_places width (view_of self.now.tested.now.sheet) ≤ length values.old }
        ensures { EndRow width (view_of self.now.tested.now.sheet) values.old values.new }
    {
        let tested = self.tested;
        let queues = tested.sizes.queues;
        let from = place(queues, tested.sheet.horizon, 0);
        // Values are stored through `value` alone, place by place, so that wider ones would differ there.
        for number in 0..queues {
            value::store(values, from + number, Value::from(0));
        }
    }

    // Every slot, the last one first.
    pub fn slots(&self) -> Slots<'a>
        ensures { (result.walk ≡ self.now) × (result.left ≡ 0) }
    {
        let tested = self.tested;
        Slots {
            walk: *self,
            weight_sum: weights(tested.ranged()),
            left: 0,
            scale: Value::from(1),
        }
    }

    // The slot with so many slots left after it.
    fn slot_with(&self, left: u32, scale: Value) -> Slot
        requires { left < self.now.tested.now.sheet.horizon }
        ensures { SlotRows (view_of self.now.tested.now.sheet) left result.left result.this result.next result.row × (result.scale ≡ scale) }
    {
        let tested = self.tested;
        let queues = tested.sizes.queues;
        let this = tested.sheet.horizon - 1 - left;
        Slot {
            left,
            this: place(queues, this, 0),
            next: place(queues, this + 1, 0),
            row: place(queues, this, 0),
            scale,
        }
    }
}

impl<'a> Iterator for Slots<'a> {
    type Item = Slot;

    ghost next_gives = { λ s r t. (t.walk ≡ s.walk) × MatchOption r (s.left ≡ s.walk.tested.now.sheet.horizon)
        (λ slot. SlotRows (view_of s.walk.tested.now.sheet) s.left slot.left slot.this slot.next slot.row ×
        (slot.scale ≡ some (W (view_of s.walk.tested.now.sheet) ^ suc s.left)) × (t.left ≡ suc s.left)) };

    ghost remaining = { λ s. at_most (s.walk.tested.now.sheet.horizon - s.left) };

    fn next(&mut self) -> Option<Slot> {
        let walk = self.walk;
        let left = self.left;
        let weight_sum = self.weight_sum;
        let tested = walk.tested;
        if left == tested.sheet.horizon {
            return None;
        }
        let scale = Value::from(0).plus_times(weight_sum, self.scale);
        let slot = walk.slot_with(left, scale);
        *self = Slots {
            walk,
            weight_sum,
            left: left + 1,
            scale,
        };
        Some(slot)
    }
}
