// What the speed of a plan byte costs in one queue.
ghost use Rattle.std.specs.Prelude.{◌≡◌};
ghost use Rattle.model.specs.View.{view_of};
ghost use Rattle.value.specs.Narrow.{width};
ghost use Rattle.choose.specs.Pass.{IsQueue, queue_of, sheet_of, sizes_of};
ghost use Rattle.follow.specs.Pass.{ArePlaces, byte_cost_in};

use choose::{Pass, Queue};
use lookups::place_of;
use ranges::Ranged;
use std::array;
use value::Value;

// The place on the sheet of each speed from 0 to 8; the count of speeds where it is not there. (They are worked out once for a row; an
// Option for each would only be turned into a place again.)
pub fn places_of(sheet: Ranged) -> [u32; 9]
    ensures { ArePlaces (view_of sheet.sheet) result }
{
    array::from_fn(|speed| place_of(sheet, speed as u32))
}

// What the speed of a byte costs in a queue. No speed is above 8, and what is slower than the block's slowest that leads on costs none.
pub fn byte_cost(pass: &Pass, speed_places: [u32; 9], queue: Queue, byte: u8) -> Value
    requires { IsQueue pass.now.lanes.now.of queue × ArePlaces (sheet_of pass.now.lanes.now.of) speed_places }
    ensures { result ≡ byte_cost_in width (sheet_of pass.now.lanes.now.of) (sizes_of pass.now.lanes.now.of) pass.now.ahead.now pass.now.scale
        (queue_of (sizes_of pass.now.lanes.now.of) queue.entry.block queue.entry.last) byte }
{
    if 8 < byte {
        return Value::NONE;
    }
    let place = speed_places[byte as usize];
    let lanes = pass.lanes;
    let tested = lanes.of.tested;
    if tested.sheet.speed_count <= place {
        return Value::NONE;
    }
    if place < queue.line.third {
        return Value::NONE;
    }
    pass.cost(queue, place as usize)
}
