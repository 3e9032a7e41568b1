// Where a slot and a queue stand, and the test that every call that is lent a plan makes first: 4 to 10, then 11.
ghost use Rattle.std.specs.Prelude.{◌≡◌, ◌≤◌, IfOk};
ghost use Rattle.model.specs.View.{view_of};
ghost use Rattle.model.specs.Plan.{row_refusal};
ghost use Rattle.refusals.specs.Numbers.{number_of};
ghost use Rattle.sheets.specs.Sizes.{Sized};
ghost use Rattle.layout.specs.Places.{place_in};

use counts::Counts;
use model::Sheet;
use refusals::Refusal;
use sheets::Tested;

// The place of a slot and a queue, in the values and in the plan: each row has as many places as there are queues.
pub fn place(queues: usize, slot: u32, queue: usize) -> usize
    requires { (queues ≤ 65535) × (slot ≤ 200) × (queue ≤ 65535) }
    ensures { result ≡ place_in queues slot queue }
{
    slot as usize * queues + queue
}

// The sheet that goes with a lent plan of so many bytes, once it is tested: 4 to 10, then 11 where the plan is too short for T rows.
#[tactic(auto, unfolding(model::specs::Plan::row_lines))]
pub fn tested_for(counts: &Counts, sheet: Sheet, room: usize) -> Result<Tested, Refusal>
    ensures number { number_of result ≡ row_refusal (view_of sheet) room }
    ensures sized { IfOk result (λ tested. (tested.sheet ≡ sheet) × Sized (view_of sheet) tested.sizes) }
{
    let tested = Tested::new(counts, sheet)?;
    if room < place(tested.sizes.queues, sheet.horizon, 0) {
        return Err(Refusal::Room);
    }
    Ok(tested)
}
