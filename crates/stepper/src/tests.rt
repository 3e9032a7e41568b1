// What the calls test, each test with its number: 13 of a state, 16 of a plan byte. Both are for a sheet whose fields are in range, 4
// to 8: they need neither 9 nor 10.
ghost use Rattle.std.specs.Prelude.{◌≡◌};
ghost use Rattle.model.specs.View.{view_of};
ghost use Rattle.model.specs.Stepper.{state_right, byte_right};
ghost use Rattle.sheets.specs.Sizes.{Sized};
ghost use Rattle.stepper.specs.Calls.{state_of};

use crate::state::State;
use lookups::place_of;
use ranges::Ranged;
use sheets::Sizes;
use slot::bearable_in;

// 13: the queue is bearable and its unused positions are zero; the slot and the energy are in range.
#[tactic(auto, unfolding(model::specs::Stepper::state_right))]
pub fn state_right(sheet: Ranged, sizes: Sizes, state: State) -> bool
    requires { Sized (view_of sheet.sheet) sizes }
    ensures { result ≡ state_right (view_of sheet.sheet) (state_of state) }
{
    bearable_in(sizes.largest, sizes.bound, state.queue)
        && state.slot <= sheet.sheet.horizon
        && state.energy <= state.slot * sizes.energy
}

// 16: the plan byte is a speed of the sheet and not below w(1).
#[tactic(auto, unfolding(model::specs::Stepper::byte_right))]
pub fn byte_right(sheet: Ranged, state: State, byte: u32) -> bool
    ensures { result ≡ byte_right (view_of sheet.sheet) (state_of state) byte }
{
    place_of(sheet, byte) < sheet.sheet.speed_count && state.queue[0] <= byte
}
