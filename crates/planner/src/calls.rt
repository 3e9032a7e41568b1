// The call `plan`.
ghost use Rattle.std.specs.Prelude.{◌≡◌};
ghost use Rattle.std.proofs.Math.Option.{get_or};
ghost use Rattle.model.specs.View.{view_of};
ghost use Rattle.model.specs.Plan.{number12};
ghost use Rattle.refusals.specs.Numbers.{number_of_refusal};
ghost use Rattle.planner.specs.Calls.{IsPlan};

use backward::{Walk, fill};
use counts::Counts;
use layout::place;
use lent::tested_for;
use model::Sheet;
use refusals::Refusal;
use value::Value;

// What a plan answers: its number, how many queues there are, and the least energy from the empty queue at slot 0. 01 fixes it,
// for refusals too.
#[derive(Clone, Copy)]
pub struct PlanAnswer {
    pub number: u32,
    pub queues: u32,
    pub least: u64,
}

// What a refused plan answers.
fn refused(refusal: Refusal) -> PlanAnswer
    ensures { (result.number ≡ number_of_refusal refusal) × (result.queues ≡ 0) × (result.least ≡ 0) }
{
    PlanAnswer {
        number: refusal.number(),
        queues: 0,
        least: 0,
    }
}

// What a plan that is not refused answers: 12 where the empty queue has no value. (Pricing has the same for an answer of its own, of which
// request [2] fixes the fields.)
fn planned(queues: u32, least: Value) -> PlanAnswer
    ensures { (result.number ≡ number12 least) × (result.queues ≡ queues) × (result.least ≡ get_or least 0) }
{
    match least.number() {
        Some(least) => PlanAnswer {
            number: 0,
            queues,
            least,
        },
        None => PlanAnswer {
            number: Refusal::NoWay.number(),
            queues,
            least: 0,
        },
    }
}

// Works out the plan of a sheet: T+1 rows of values and T rows of plan bytes, in lent memory.
pub fn plan(sheet: Sheet, values: &mut [u64], plan: &mut [u8]) -> PlanAnswer
    ensures { IsPlan (view_of sheet) values.old plan.old values.new plan.new
        result.number result.queues result.least }
{
    let counts = Counts::new();
    match tested_for(&counts, sheet, values.len(), plan.len()) {
        Ok(tested) => {
            let queues = tested.sizes.queues;
            let walk = Walk { tested: &tested };
            fill(&counts, &walk, values, plan);
            planned(queues as u32, value::load(values, place(queues, 0, 0)))
        }
        Err(refusal) => refused(refusal),
    }
}
