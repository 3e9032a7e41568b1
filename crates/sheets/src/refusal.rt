// The refusal of a sheet in memory: the tests 4 to 10 in 01's field order.
ghost use Rattle.std.specs.Prelude.{◌≡◌, ◌≤◌};
ghost use Rattle.model.specs.View.{view_of};
ghost use Rattle.model.specs.Refusal.{speeds_refusal, jobs_refusal, fields_refusal, sheet_refusal, value_limit};
ghost use Rattle.refusals.specs.Numbers.{number_of};

use counts::Counts;
use limits::limits_refusal;
use model::Sheet;
use ranges::{
    Ranged, bound_right, horizon_right, job_count_right, refusal_of_job, refusal_of_speed,
    speed_count_right,
};
use refusals::Refusal;

// The refusal of the first speed that is refused. (No function serves speeds and jobs alike: a speed is tested by its place and after the
// speed before it, a job by itself.)
fn speeds_refusal(sheet: Sheet) -> Result<(), Refusal>
    requires { sheet.speed_count ≤ 9 }
    ensures { number_of result ≡ speeds_refusal (view_of sheet) sheet.speed_count }
{
    let mut before = 0;
    for (place, one) in sheet.speeds().iter().enumerate() {
        refusal_of_speed(place as u32, before, one.speed, one.energy)?;
        before = one.speed;
    }
    Ok(())
}

// The refusal of the first job that is refused.
fn jobs_refusal(sheet: Sheet) -> Result<(), Refusal>
    requires { sheet.job_count ≤ 32 }
    ensures { number_of result ≡ jobs_refusal (view_of sheet) sheet.job_count }
{
    for one in sheet.jobs() {
        refusal_of_job(sheet.bound, *one)?;
    }
    Ok(())
}

// 4 to 8, the range of each field.
#[tactic(auto, unfolding(model::specs::Refusal::field_lines))]
fn fields_refusal(sheet: Sheet) -> Result<(), Refusal>
    ensures { number_of result ≡ fields_refusal (view_of sheet) }
{
    if !bound_right(sheet.bound) {
        return Err(Refusal::Bound);
    }
    if !speed_count_right(sheet.speed_count) {
        return Err(Refusal::Speeds);
    }
    speeds_refusal(sheet)?;
    if !horizon_right(sheet.horizon) {
        return Err(Refusal::Horizon);
    }
    if !job_count_right(sheet.job_count) {
        return Err(Refusal::Jobs);
    }
    jobs_refusal(sheet)
}

// The refusal of a sheet in memory, whatever stands in it.
#[tactic(auto, unfolding(model::specs::Refusal::sheet_lines, model::specs::Refusal::lines_given))]
pub fn sheet_refusal(counts: &Counts, sheet: Sheet) -> Result<(), Refusal>
    ensures { number_of result ≡ sheet_refusal value_limit (view_of sheet) }
{
    fields_refusal(sheet)?;
    limits_refusal(counts, Ranged { sheet })
}
