// The range of each field of a sheet, the refusal of one speed and of one job, and a sheet whose fields are all in range (ranged). The
// reader tests each field by its range as it reads it; the tests of a sheet in memory use the same ranges.
//
// Functions that differ only in their numbers stay apart: each promises the model's definition of its own field, by name.
#![tactic(auto)]

ghost use Rattle.std.specs.Prelude.{◌≡◌};
ghost use Rattle.model.specs.Refusal.{bound_right, speed_count_right, speed_right, energy_right, horizon_right, job_count_right, weight_right, size_right, deadline_right, refusal_of_speed, refusal_of_job};
ghost use Rattle.refusals.specs.Numbers.{number_of};

use model::Job;
use refusals::Refusal;

mod ranged;

pub use ranged::Ranged;

// The deadline bound D.
pub fn bound_right(bound: u32) -> bool
    ensures { result ≡ bound_right bound }
{
    (1..=6).contains(&bound)
}

// The count of speeds.
pub fn speed_count_right(count: u32) -> bool
    ensures { result ≡ speed_count_right count }
{
    (2..=9).contains(&count)
}

// The speed at a place of the sheet, after the speed before it: the first is 0, each other is faster than the one before and at
// most 8.
pub fn speed_right(place: u32, before: u32, speed: u32) -> bool
    ensures { result ≡ speed_right place before speed }
{
    if place == 0 {
        return speed == 0;
    }
    before < speed && speed <= 8
}

// The energy of a speed.
pub fn energy_right(energy: u32) -> bool
    ensures { result ≡ energy_right energy }
{
    energy <= 65535
}

// The horizon T.
pub fn horizon_right(horizon: u32) -> bool
    ensures { result ≡ horizon_right horizon }
{
    (1..=200).contains(&horizon)
}

// The count of jobs.
pub fn job_count_right(count: u32) -> bool
    ensures { result ≡ job_count_right count }
{
    (1..=32).contains(&count)
}

// The weight of a job.
pub fn weight_right(weight: u32) -> bool
    ensures { result ≡ weight_right weight }
{
    (1..=255).contains(&weight)
}

// The size of a job.
pub fn size_right(size: u32) -> bool
    ensures { result ≡ size_right size }
{
    size <= 255
}

// The deadline of a job of a sheet with this deadline bound.
pub fn deadline_right(bound: u32, deadline: u32) -> bool
    ensures { result ≡ deadline_right bound deadline }
{
    (1..=bound).contains(&deadline)
}

// The refusal of one speed with its energy, at a place of the sheet, after the speed before it.
pub fn refusal_of_speed(place: u32, before: u32, speed: u32, energy: u32) -> Result<(), Refusal>
    ensures { number_of result ≡ refusal_of_speed place before speed energy }
{
    if !speed_right(place, before, speed) {
        return Err(Refusal::Speeds);
    }
    if !energy_right(energy) {
        return Err(Refusal::Energy);
    }
    Ok(())
}

// The refusal of one job of a sheet with this deadline bound.
pub fn refusal_of_job(bound: u32, one: Job) -> Result<(), Refusal>
    ensures { number_of result ≡ refusal_of_job bound one.weight one.size one.deadline }
{
    if weight_right(one.weight) && size_right(one.size) && deadline_right(bound, one.deadline) {
        Ok(())
    } else {
        Err(Refusal::Jobs)
    }
}
