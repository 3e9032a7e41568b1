// All the rows of a plan: the end row, and then slot after slot from the last one back, each from the row of the next.
ghost use Rattle.std.specs.Prelude.{◌≡◌, ◌+◌, ◌*◌, ◌≤◌, length};
ghost use Rattle.model.specs.View.{view_of};
ghost use Rattle.model.specs.Plan.{value_places, plan_needed};
ghost use Rattle.value.specs.Narrow.{width};
ghost use Rattle.backward.specs.Passes.{ValueRow, InPlan, Planned, PlannedFrom};

use crate::slots::{Slot, Walk};
use counts::Counts;
use entry_lanes::EntryLanes;
use speed_lanes::SpeedLanes;

// One slot: the first pass works out what is ahead of every queue after the slot, from the next slot's values, and the second one fills the
// slot's row of values and its row of the plan.
fn fill_slot(
    walk: &Walk,
    entries: &EntryLanes,
    speeds: &SpeedLanes,
    slot: Slot,
    ahead: &mut [u64],
    values: &mut [u64],
    plan: &mut [u8],
)
    requires slot { InPlan (view_of walk.now.tested.now.sheet) slot.left slot.scale ×
        ValueRow width (view_of walk.now.tested.now.sheet) slot.left slot.next values.old ×
        (walk.now.tested.now.sizes.after * width.places ≤ length ahead.old) ×
        ((slot.this + walk.now.tested.now.sizes.queues) * width.places ≤ length values.old) ×
        (slot.row + walk.now.tested.now.sizes.queues ≤ length plan.old) }
    requires lanes { (entries.now.of.tested.now ≡ walk.now.tested.now) × (speeds.now.of.tested.now ≡ walk.now.tested.now) }
    ensures { Planned width (view_of walk.now.tested.now.sheet) slot.left slot.this slot.row values.old plan.old values.new plan.new }
{
    let first = ahead::Pass {
        lanes: entries,
        next: slot.next,
        values,
    };
    first.fill(ahead);
    let second = choose::Pass {
        lanes: speeds,
        sizes: walk.tested.sizes,
        scale: slot.scale,
        ahead,
    };
    second.fill(slot.this, slot.row, values, plan);
}

// Every slot, by a walk that pricing shares; this body fills values and plan bytes, and that one prices a plan that it only reads, so that
// each has its own contract. What is ahead stands in an array of its own, one place for each queue after a slot: at most 7,084 of them where
// there are at most 65,535 queues. (So a slot's row could even be written over the next slot's.)
fn fill_slots(
    walk: &Walk,
    entries: &EntryLanes,
    speeds: &SpeedLanes,
    values: &mut [u64],
    plan: &mut [u8],
)
    requires rooms { (plan_needed (view_of walk.now.tested.now.sheet) ≤ length plan.old) ×
        (value_places width (view_of walk.now.tested.now.sheet) ≤ length values.old) ×
        PlannedFrom width (view_of walk.now.tested.now.sheet) 0 values.old plan.old values.old plan.old }
    requires tables { (entries.now.of.tested.now ≡ walk.now.tested.now) × (speeds.now.of.tested.now ≡ walk.now.tested.now) }
    ensures { PlannedFrom width (view_of walk.now.tested.now.sheet) walk.now.tested.now.sheet.horizon
        values.old plan.old values.new plan.new }
{
    let mut ahead = [0; 7084];
    for slot in walk.slots() {
        fill_slot(walk, entries, speeds, slot, &mut ahead, values, plan);
    }
}

// The end row and every slot. The lanes are the same for every slot, and are worked out once: for the entries two columns of 32 places and
// a line for each of at most 969 blocks, for the speeds two columns of 9 places and a line for each of at most 7,084.
pub fn fill(counts: &Counts, walk: &Walk, values: &mut [u64], plan: &mut [u8])
    requires { (plan_needed (view_of walk.now.tested.now.sheet) ≤ length plan.old) ×
        (value_places width (view_of walk.now.tested.now.sheet) ≤ length values.old) }
    ensures { PlannedFrom width (view_of walk.now.tested.now.sheet) walk.now.tested.now.sheet.horizon
        values.old plan.old values.new plan.new }
{
    let mut entry_numbers = [0; 33979];
    let mut speed_numbers = [0; 49606];
    let entries = entry_lanes::fill_table(counts, walk.tested, &mut entry_numbers);
    let speeds = speed_lanes::fill_table(counts, walk.tested, &mut speed_numbers);
    walk.fill_end(values);
    fill_slots(walk, &entries, &speeds, values, plan);
}
