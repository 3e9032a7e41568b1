// The call `rule`.
ghost use Rattle.model.specs.View.{view_of};
ghost use Rattle.old_rule.specs.Calls.{IsRule};

use crate::rows::fill;
use counts::Counts;
use layout::tested_for;
use model::Sheet;

// What the rule's call answers: its number, and how many queues there are. 01 fixes it: a number, and zero where the call is refused.
#[derive(Clone, Copy)]
pub struct RuleAnswer {
    pub number: u32,
    pub queues: u32,
}

// Writes the plan of the old rule: T rows of plan bytes, in lent memory.
pub fn rule(sheet: Sheet, plan: &mut [u8]) -> RuleAnswer
    ensures { IsRule (view_of sheet) plan.old plan.new result.number result.queues }
{
    let counts = Counts::new();
    match tested_for(&counts, sheet, plan.len()) {
        Ok(tested) => {
            fill(&counts, tested, plan);
            RuleAnswer {
                number: 0,
                queues: tested.sizes.queues as u32,
            }
        }
        Err(refusal) => RuleAnswer {
            number: refusal.number(),
            queues: 0,
        },
    }
}
