// The rows of the rule's plan. The rule does not look at the slot, so that every row is like the first.
ghost use Rattle.std.specs.Prelude.{◌≤◌, length};
ghost use Rattle.model.specs.View.{view_of};
ghost use Rattle.model.specs.Plan.{plan_needed};
ghost use Rattle.model.specs.Refusal.{N};
ghost use Rattle.sheets.specs.Sizes.{Sized};
ghost use Rattle.old_rule.specs.Rows.{FilledTo};

use crate::speed::speed_of;
use counts::Counts;
use layout::place;
use queues::queue_at;
use sheets::Tested;

// The row of slot 0: the speed that the rule sets in each queue, at the queue's number.
fn fill_first(counts: &Counts, tested: Tested, plan: &mut [u8])
    requires { Sized (view_of tested.sheet) tested.sizes × (plan_needed (view_of tested.sheet) ≤ length plan.old) }
    ensures { FilledTo (view_of tested.sheet) (N (view_of tested.sheet)) plan.old plan.new }
{
    let sheet = tested.ranged();
    for (number, byte) in plan[..tested.sizes.queues].iter_mut().enumerate() {
        let queue = queue_at(counts, tested.sizes.largest, tested.sizes.bound, number);
        *byte = speed_of(sheet, queue) as u8;
    }
}

// Every row: the first, and then a copy of it for each later slot.
pub fn fill(counts: &Counts, tested: Tested, plan: &mut [u8])
    requires { Sized (view_of tested.sheet) tested.sizes × (plan_needed (view_of tested.sheet) ≤ length plan.old) }
    ensures { FilledTo (view_of tested.sheet) (plan_needed (view_of tested.sheet)) plan.old plan.new }
{
    fill_first(counts, tested, plan);
    let queues = tested.sizes.queues;
    for slot in 1..tested.sheet.horizon {
        plan.copy_within(..queues, place(queues, slot, 0));
    }
}
