// Whether lent memory has room for a plan and its values: the test that every call makes first that is lent both.
#![tactic(auto)]

ghost use Rattle.std.specs.Prelude.{◌≡◌, IfOk};
ghost use Rattle.model.specs.View.{view_of};
ghost use Rattle.model.specs.Plan.{plan_refusal};
ghost use Rattle.refusals.specs.Numbers.{number_of};
ghost use Rattle.sheets.specs.Sizes.{Sized};
ghost use Rattle.value.specs.Narrow.{width};

use counts::Counts;
use layout::place;
use model::Sheet;
use refusals::Refusal;
use sheets::Tested;

// The sheet that goes with lent values and a lent plan of so many places, once it is tested: 4 to 10, then 11 where the values are too short
// for T+1 rows or the plan for T.
#[tactic(auto, unfolding(model::specs::Plan::plan_lines))]
pub fn tested_for(
    counts: &Counts,
    sheet: Sheet,
    values_room: usize,
    plan_room: usize,
) -> Result<Tested, Refusal>
    ensures number { number_of result ≡ plan_refusal width (view_of sheet) values_room plan_room }
    ensures sized { IfOk result (λ tested. (tested.sheet ≡ sheet) × Sized (view_of sheet) tested.sizes) }
{
    let tested = Tested::new(counts, sheet)?;
    let queues = tested.sizes.queues;
    if !value::fit(place(queues, sheet.horizon, queues), values_room) {
        return Err(Refusal::Room);
    }
    if plan_room < place(queues, sheet.horizon, 0) {
        return Err(Refusal::Room);
    }
    Ok(tested)
}
