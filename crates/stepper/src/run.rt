// What a run goes by, and the speeds of its slots, out of the plan: of the slot that ends, and of the one that begins.
ghost use Rattle.std.specs.Prelude.{◌≡◌, ◌≤◌, ◌<◌, T, length, IfOk};
ghost use Rattle.model.specs.View.{view_of, M};
ghost use Rattle.model.specs.Plan.{row_refusal};
ghost use Rattle.model.specs.Queue.{bearable};
ghost use Rattle.model.specs.Tests.{check};
ghost use Rattle.refusals.specs.Numbers.{number_of};
ghost use Rattle.stepper.specs.Parts.{Ready};

use crate::state::State;
use crate::tests::{byte_right, state_right};
use counts::Counts;
use layout::{byte_of_queue, tested_for};
use model::Sheet;
use refusals::Refusal;
use sheets::Tested;

// What stands for a speed where no slot begins: "255 when the horizon is reached", as request [1] of 02 has it.
const NO_SPEED: u32 = 255;

// A sheet that was tested, a lent plan that is long enough for it, and the counts that its queues are numbered by.
#[derive(Clone, Copy)]
pub struct Run<'a> {
    pub counts: &'a Counts,
    pub tested: Tested,
    pub plan: &'a [u8],
    pub ghost ready: { Ready (view_of tested.sheet) tested.sizes plan.now },
}

impl<'a> Run<'a> {
    ghost use Rattle.model.specs.Stepper.{queue_of, plan_byte, byte_right, speed_now, begins_right, ending_refusal};
    ghost use Rattle.stepper.specs.Calls.{state_of};

    // Tests the sheet and how long the plan is: 4 to 10, then 11.
    pub fn new(counts: &'a Counts, sheet: Sheet, plan: &'a [u8]) -> Result<Run<'a>, Refusal>
        ensures number { number_of result ≡ row_refusal (view_of sheet) (length plan.now) }
        ensures given { IfOk result (λ run. (run.tested.sheet ≡ sheet) × (run.plan.now ≡ plan.now)) }
    {
        let tested = tested_for(counts, sheet, plan.len())?;
        Ok(Run {
            counts,
            tested,
            plan,
        })
    }

    // The speed of the slot that ends, after the tests of it: 13, 14 and 16.
    #[tactic(auto, unfolding(model::specs::Stepper::ending_lines))]
    pub fn ending(self, state: State) -> Result<u32, Refusal>
        ensures number { number_of result ≡ ending_refusal (view_of self.entry.tested.sheet) self.entry.plan.now (state_of state) }
        ensures speed { IfOk result (λ speed. speed ≡ plan_byte (view_of self.entry.tested.sheet) self.entry.plan.now (state_of state)) }
    {
        if !state_right(self.tested.ranged(), self.tested.sizes, state) {
            return Err(Refusal::State);
        }
        if state.slot == self.tested.sheet.horizon {
            return Err(Refusal::AtHorizon);
        }
        self.speed_of(state)
    }

    // The speed of the slot that begins, after the test of it: 16. At the horizon none begins.
    pub fn beginning(self, state: State) -> Result<u32, Refusal>
        requires { T (bearable (M (view_of self.tested.sheet)) (queue_of (view_of self.tested.sheet) (state_of state))) ×
            (state.slot ≤ self.tested.sheet.horizon) }
        ensures number { number_of result ≡
            check (begins_right (view_of self.entry.tested.sheet) self.entry.plan.now (state_of state)) 16 }
        ensures speed { IfOk result (λ speed. speed ≡ speed_now (view_of self.entry.tested.sheet) self.entry.plan.now (state_of state)) }
    {
        if state.slot >= self.tested.sheet.horizon {
            return Ok(NO_SPEED);
        }
        self.speed_of(state)
    }

    // The plan byte of the slot that a state is at, or 16: for the slot that ends and for the one that begins.
    fn speed_of(self, state: State) -> Result<u32, Refusal>
        requires { T (bearable (M (view_of self.tested.sheet)) (queue_of (view_of self.tested.sheet) (state_of state))) ×
            (state.slot < self.tested.sheet.horizon) }
        ensures number { number_of result ≡ check (byte_right (view_of self.entry.tested.sheet) (state_of state)
            (plan_byte (view_of self.entry.tested.sheet) self.entry.plan.now (state_of state))) 16 }
        ensures speed { IfOk result (λ speed. speed ≡ plan_byte (view_of self.entry.tested.sheet) self.entry.plan.now (state_of state)) }
    {
        let byte = byte_of_queue(
            self.counts,
            self.tested.sizes,
            self.plan,
            state.slot,
            state.queue,
        );
        if !byte_right(self.tested.ranged(), state, byte) {
            return Err(Refusal::PlanByte);
        }
        Ok(byte)
    }
}
