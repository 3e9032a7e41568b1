// What a slot does to a state.
ghost use Rattle.std.specs.Prelude.{◌≡◌, ◌≤◌, T, IfOk};
ghost use Rattle.model.specs.View.{view_of, on_sheet};
ghost use Rattle.model.specs.Stepper.{state_right, next_refusal, moved};
ghost use Rattle.refusals.specs.Numbers.{number_of};
ghost use Rattle.sheets.specs.Sizes.{Sized};
ghost use Rattle.stepper.specs.Calls.{state_of};

use crate::state::State;
use lookups::energy_of;
use ranges::Ranged;
use refusals::Refusal;
use sheets::Sizes;
use slot::{bearable, one_slot};

// The state after a slot at this speed and an arrival, or 17 or 18.
pub fn moved(
    sheet: Ranged,
    sizes: Sizes,
    state: State,
    speed: u32,
    size: u32,
    deadline: u32,
) -> Result<State, Refusal>
    requires { Sized (view_of sheet.sheet) sizes × T (state_right (view_of sheet.sheet) (state_of state)) ×
        T (on_sheet (view_of sheet.sheet) speed) × (size ≤ 255) }
    ensures number { number_of result ≡
        next_refusal (view_of sheet.sheet) (moved (view_of sheet.sheet) (state_of state) speed size deadline) }
    ensures state { IfOk result (λ next. state_of next ≡ moved (view_of sheet.sheet) (state_of state) speed size deadline) }
{
    let queue = one_slot(sizes.bound, state.queue, speed, size, deadline);
    if !bearable(sizes.largest, sizes.bound, queue) {
        return Err(Refusal::NextQueue);
    }
    let energy = state
        .energy
        .checked_add(energy_of(sheet, speed))
        .ok_or(Refusal::EnergyTotal)?;
    Ok(State {
        queue,
        slot: state.slot + 1,
        energy,
    })
}
