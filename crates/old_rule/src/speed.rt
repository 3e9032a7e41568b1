// The speed that the old rule sets in a queue.
ghost use Rattle.std.specs.Prelude.{◌≡◌, ◌≤◌, T};
ghost use Rattle.model.specs.View.{view_of, M};
ghost use Rattle.model.specs.Queue.{queue_in, bearable};
ghost use Rattle.model.specs.Pricing.{enough, IsRuleSpeed};

use ranges::Ranged;

// Whether u times a speed is at least w(u), for each u from 1 to D.
fn enough(bound: usize, queue: [u32; 6], speed: u32) -> bool
    requires { (bound ≤ 6) × (speed ≤ 8) }
    ensures { result ≡ enough (queue_in bound queue) speed }
{
    queue[..bound]
        .iter()
        .enumerate()
        .all(|(place, total)| *total <= (place as u32 + 1) * speed)
}

// The smallest speed of the sheet that is enough: the first, since speeds rise. The last one, M, is enough for every bearable queue.
pub fn speed_of(sheet: Ranged, queue: [u32; 6]) -> u32
    requires { T (bearable (M (view_of sheet.sheet)) (queue_in sheet.sheet.bound queue)) }
    ensures { IsRuleSpeed (view_of sheet.sheet) (queue_in sheet.sheet.bound queue) result }
{
    let speeds = sheet.sheet.speeds();
    let smallest = speeds
        .iter()
        .find(|one| enough(sheet.sheet.bound as usize, queue, one.speed))
        .unwrap();
    smallest.speed
}
