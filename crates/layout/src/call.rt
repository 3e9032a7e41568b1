// The call `row`.
ghost use Rattle.model.specs.View.{view_of};
ghost use Rattle.layout.specs.Calls.{IsRow};

use crate::bytes::row_of;
use crate::rooms::tested_for;
use counts::Counts;
use model::Sheet;

// The part of a plan that belongs to a slot: one byte for each queue, in the order of their numbers. It is empty where the sheet is
// refused, the plan too short, or the slot not one of the sheet's.
pub fn row(sheet: Sheet, plan: &[u8], slot: u32) -> &[u8]
    ensures { IsRow (view_of sheet) plan.now slot result.now }
{
    match tested_for(&Counts::new(), sheet, plan.len()) {
        Ok(tested) if slot < sheet.horizon => row_of(plan, tested.sizes.queues, slot),
        _ => &plan[..0],
    }
}
