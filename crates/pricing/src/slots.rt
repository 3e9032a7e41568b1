// All the rows of prices: the end row, which is the planner's, and then slot after slot from the last one back.
ghost use Rattle.std.specs.Prelude.{◌≡◌, ◌+◌, ◌*◌, ◌≤◌, length};
ghost use Rattle.model.specs.View.{view_of};
ghost use Rattle.model.specs.Plan.{value_places, plan_needed};
ghost use Rattle.value.specs.Narrow.{width};
ghost use Rattle.backward.specs.Passes.{InPlan, RowWith, FilledFrom};
ghost use Rattle.pricing.specs.Prices.{price_with, InRow, PricedRow};

use backward::{Slot, Walk};
use counts::Counts;
use entry_lanes::EntryLanes;
use follow::places_of;
use speed_lanes::SpeedLanes;

// One slot: what is ahead of every queue after it, and then what the plan's byte costs in each queue.
fn fill_slot(
    walk: &Walk,
    entries: &EntryLanes,
    speeds: &SpeedLanes,
    slot: Slot,
    ahead: &mut [u64],
    values: &mut [u64],
    plan: &[u8],
)
    requires slot { InPlan (view_of walk.now.tested.now.sheet) slot.left slot.scale ×
        InRow (view_of walk.now.tested.now.sheet) slot.left slot.row plan.now ×
        RowWith width (view_of walk.now.tested.now.sheet) (price_with (view_of walk.now.tested.now.sheet) plan.now slot.left)
        slot.next values.old × (walk.now.tested.now.sizes.after * width.places ≤ length ahead.old) ×
        ((slot.this + walk.now.tested.now.sizes.queues) * width.places ≤ length values.old) }
    requires lanes { (entries.now.of.tested.now ≡ walk.now.tested.now) × (speeds.now.of.tested.now ≡ walk.now.tested.now) }
    ensures { PricedRow width (view_of walk.now.tested.now.sheet) plan.now slot.left slot.this values.old values.new }
{
    let first = ahead::Pass {
        lanes: entries,
        next: slot.next,
        values,
    };
    first.fill(ahead);
    let second = choose::Pass {
        lanes: speeds,
        sizes: walk.tested.sizes,
        scale: slot.scale,
        ahead,
    };
    let tested = walk.tested;
    follow::fill(
        &second,
        places_of(tested.ranged()),
        slot.this,
        slot.row,
        plan,
        values,
    );
}

// Every slot, by the planner's walk; but for a plan that is only read, under a contract of its own. What is ahead stands in an array of its
// own, as the planner has it.
fn fill_slots(
    walk: &Walk,
    entries: &EntryLanes,
    speeds: &SpeedLanes,
    values: &mut [u64],
    plan: &[u8],
)
    requires rooms { (plan_needed (view_of walk.now.tested.now.sheet) ≤ length plan.now) ×
        (value_places width (view_of walk.now.tested.now.sheet) ≤ length values.old) ×
        FilledFrom width (view_of walk.now.tested.now.sheet) (price_with (view_of walk.now.tested.now.sheet) plan.now)
        0 values.old values.old }
    requires tables { (entries.now.of.tested.now ≡ walk.now.tested.now) × (speeds.now.of.tested.now ≡ walk.now.tested.now) }
    ensures { FilledFrom width (view_of walk.now.tested.now.sheet) (price_with (view_of walk.now.tested.now.sheet) plan.now)
        walk.now.tested.now.sheet.horizon values.old values.new }
{
    let mut ahead = [0; 7084];
    for slot in walk.slots() {
        fill_slot(walk, entries, speeds, slot, &mut ahead, values, plan);
    }
}

// The end row and every slot. The lanes are the same for every slot, and are worked out once, as the planner has them. (They stand on the
// stack, 330 KB, which a function that both call could not hand out without a copy.)
pub fn fill(counts: &Counts, walk: &Walk, values: &mut [u64], plan: &[u8])
    requires { (plan_needed (view_of walk.now.tested.now.sheet) ≤ length plan.now) ×
        (value_places width (view_of walk.now.tested.now.sheet) ≤ length values.old) }
    ensures { FilledFrom width (view_of walk.now.tested.now.sheet) (price_with (view_of walk.now.tested.now.sheet) plan.now)
        walk.now.tested.now.sheet.horizon values.old values.new }
{
    let mut entry_numbers = [0; 33979];
    let mut speed_numbers = [0; 49606];
    let entries = entry_lanes::fill_table(counts, walk.tested, &mut entry_numbers);
    let speeds = speed_lanes::fill_table(counts, walk.tested, &mut speed_numbers);
    walk.fill_end(values);
    fill_slots(walk, &entries, &speeds, values, plan);
}
