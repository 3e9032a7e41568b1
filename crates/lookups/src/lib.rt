// What is looked up on a sheet: a speed's place and its energy, and whether an arrival is an entry. As in limits, the sheet's
// fields are in range.
#![tactic(auto)]

ghost use Rattle.std.specs.Prelude.{◌≡◌, T};
ghost use Rattle.model.specs.View.{view_of, place_of_speed, on_sheet, energy_of};
ghost use Rattle.model.specs.Stepper.{is_entry};

use ranges::Ranged;

// The place of a speed on the sheet; the count of speeds where it is not there, as in the model's definition: follow keeps nine of these in
// an array of numbers, and an Option in each would be twice as long.
#[tactic(auto, using(limits::proofs::Places::speeds_few))]
pub fn place_of(sheet: Ranged, speed: u32) -> u32
    ensures { result ≡ place_of_speed (view_of sheet.sheet) speed }
{
    let speeds = sheet.sheet.speeds();
    let place = speeds.iter().position(|one| one.speed == speed);
    place.unwrap_or(sheet.sheet.speed_count as usize) as u32
}

// The energy per slot of a speed that is on the sheet.
pub fn energy_of(sheet: Ranged, speed: u32) -> u32
    requires { T (on_sheet (view_of sheet.sheet) speed) }
    ensures { result ≡ energy_of (view_of sheet.sheet) speed }
{
    let place = place_of(sheet, speed);
    sheet.sheet.speeds[place as usize].energy
}

// Whether an entry of the sheet has this size and this deadline.
#[tactic(auto, using(limits::proofs::Places::jobs_few))]
pub fn is_entry(sheet: Ranged, size: u32, deadline: u32) -> bool
    ensures { result ≡ is_entry (view_of sheet.sheet) size deadline }
{
    let jobs = sheet.sheet.jobs();
    jobs.iter()
        .any(|one| one.size == size && one.deadline == deadline)
}
