// The state and its two calls, one for each slot: `start` and `advance`.
ghost use Rattle.std.specs.Prelude.{◌≡◌, IfOk, MatchResult};
ghost use Rattle.model.specs.View.{view_of};
ghost use Rattle.model.specs.Stepper.{zero_state, begun, plan_byte, moved, speed_now, start_refusal, start, advance_refusal, advance};
ghost use Rattle.refusals.specs.Numbers.{number_of};
ghost use Rattle.stepper.specs.Calls.{state_of, IsStepped};

use crate::run::Run;
use crate::step::moved;
use counts::Counts;
use lookups::is_entry;
use model::Sheet;
use refusals::Refusal;
use slot::bearable_in;

// A queue in its six places, the number of the slot, and the energy spent.
#[derive(Clone, Copy)]
pub struct State {
    pub queue: [u32; 6],
    pub slot: u32,
    pub energy: u32,
}

// What a start or an advance answers: its number, the state to go on from, and the speed of the slot that begins there. 01 fixes it: a call
// that is refused answers a state too.
#[derive(Clone, Copy)]
pub struct Stepped {
    pub number: u32,
    pub state: State,
    pub speed: u32,
}

// The state with nothing in it.
const ZERO_STATE: State = State {
    queue: [0; 6],
    slot: 0,
    energy: 0,
};

impl State {
    // Begins a run from the state's queue, at slot 0 and with no energy spent, and answers the first speed; the slot and energy that the
    // state had are not looked at. A refused start gives an all-zero state and speed 0.
    pub fn start(self, sheet: Sheet, plan: &[u8]) -> Stepped
        ensures { IsStepped (start (view_of sheet) plan.now (state_of self)) result.number result.state result.speed }
    {
        stepped_by(self.try_start(sheet, plan), ZERO_STATE)
    }

    // The state that a run begins with, and the first speed.
    #[tactic(auto, unfolding(model::specs::Stepper::start_lines))]
    fn try_start(self, sheet: Sheet, plan: &[u8]) -> Result<(State, u32), Refusal>
        ensures number { number_of result ≡ start_refusal (view_of sheet) plan.now (state_of self) }
        ensures given { IfOk result (λ step. (state_of step.0 ≡ begun (state_of self)) ×
            (step.1 ≡ speed_now (view_of sheet) plan.now (begun (state_of self)))) }
    {
        let counts = Counts::new();
        let run = Run::new(&counts, sheet, plan)?;
        if !bearable_in(run.tested.sizes.largest, run.tested.sizes.bound, self.queue) {
            return Err(Refusal::State);
        }
        let queue = self.queue;
        let state = State {
            queue,
            slot: 0,
            energy: 0,
        };
        let speed = run.beginning(state)?;
        Ok((state, speed))
    }

    // Runs the slot at the plan's speed, then takes the arrival, and answers the speed of the slot that begins, 255 at the horizon. A
    // refused advance hands back the state that it got, and speed 0.
    pub fn advance(self, sheet: Sheet, plan: &[u8], size: u32, deadline: u32) -> Stepped
        ensures { IsStepped (advance (view_of sheet) plan.now (state_of self) size deadline)
            result.number result.state result.speed }
    {
        stepped_by(self.try_advance(sheet, plan, size, deadline), self)
    }

    // The next state, and the speed of the slot that begins.
    #[tactic(auto, unfolding(model::specs::Stepper::advance_lines, model::specs::Stepper::ending_lines))]
    fn try_advance(
        self,
        sheet: Sheet,
        plan: &[u8],
        size: u32,
        deadline: u32,
    ) -> Result<(State, u32), Refusal>
        ensures number { number_of result ≡ advance_refusal (view_of sheet) plan.now (state_of self) size deadline }
        ensures given { IfOk result (λ step.
            let next = moved (view_of sheet) (state_of self) (plan_byte (view_of sheet) plan.now (state_of self)) size deadline in
            (state_of step.0 ≡ next) × (step.1 ≡ speed_now (view_of sheet) plan.now next)) }
    {
        let counts = Counts::new();
        let run = Run::new(&counts, sheet, plan)?;
        let ended = run.ending(self)?;
        let ranged = run.tested.ranged();
        if !is_entry(ranged, size, deadline) {
            return Err(Refusal::NoEntry);
        }
        let next = moved(ranged, run.tested.sizes, self, ended, size, deadline)?;
        let begun = run.beginning(next)?;
        Ok((next, begun))
    }
}

// What a call answers: 0, the state to go on from and its speed; or its refusal's number, this state and speed 0.
fn stepped_by(step: Result<(State, u32), Refusal>, refused: State) -> Stepped
    ensures number { result.number ≡ number_of step }
    ensures given { MatchResult step (λ given. (result.state ≡ given.0) × (result.speed ≡ given.1))
        (λ _. (result.state ≡ refused) × (result.speed ≡ 0)) }
{
    match step {
        Ok((state, speed)) => Stepped {
            number: 0,
            state,
            speed,
        },
        Err(refusal) => Stepped {
            number: refusal.number(),
            state: refused,
            speed: 0,
        },
    }
}
