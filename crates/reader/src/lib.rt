// The reader: the fields in order, each tested before the next one is read; after the last, 3, 9 and 10. Its call takes any bytes. What it
// refuses, it refuses with a number.
#![tactic(auto)]

ghost use Rattle.std.specs.Prelude.{◌≡◌};
ghost use Rattle.reader.specs.Calls.{IsRead};
ghost use Rattle.reader.specs.Answers.{number_and_sheet};
ghost use Rattle.model.specs.Reading.{read};

use counts::Counts;
use fields::field_at;
use limits::limits_refusal;
use model::{Job, Sheet, Speed};
use ranges::{Ranged, bound_right, horizon_right};
use refusals::Refusal;
use tables::{Jobs, Speeds, table_at};

// The number 0 with the sheet, or a refusal's number with an all-zero sheet.
#[derive(Clone, Copy)]
pub struct ReadSheet {
    pub number: u32,
    pub sheet: Sheet,
}

// What a refused read gives.
const ZERO_SHEET: Sheet = Sheet {
    bound: 0,
    speed_count: 0,
    speeds: [Speed {
        speed: 0,
        energy: 0,
    }; 9],
    horizon: 0,
    job_count: 0,
    jobs: [Job {
        weight: 0,
        size: 0,
        deadline: 0,
    }; 32],
};

// The sheet that the bytes hold, or the first refusal.
#[tactic(auto, unfolding(model::specs::Reading::read, model::specs::Reading::read_view))]
fn sheet_at(bytes: &[u8]) -> Result<Sheet, Refusal>
    ensures { number_and_sheet result ≡ read bytes.now }
{
    // 01 names this form: each sheet field taken apart by `let .. else`, its refusal returned at once.
    let answer = field_at(bytes, 0);
    let Ok((bound, next)) = answer else {
        return Err(answer.unwrap_err());
    };
    if !bound_right(bound) {
        return Err(Refusal::Bound);
    }
    let ((speed_count, speeds), next) = table_at(&Speeds, bytes, next)?;
    let answer = field_at(bytes, next);
    let Ok((horizon, next)) = answer else {
        return Err(answer.unwrap_err());
    };
    if !horizon_right(horizon) {
        return Err(Refusal::Horizon);
    }
    let ((job_count, jobs), next) = table_at(&Jobs { bound }, bytes, next)?;
    if next < bytes.len() {
        return Err(Refusal::BytesFollow);
    }
    let sheet = Sheet {
        bound,
        speed_count,
        speeds,
        horizon,
        job_count,
        jobs,
    };
    limits_refusal(&Counts::new(), Ranged { sheet })?;
    Ok(sheet)
}

// Reads a sheet. 01 fixes what it answers: a number and a sheet.
pub fn read(bytes: &[u8]) -> ReadSheet
    ensures { IsRead bytes.now result.number result.sheet }
{
    match sheet_at(bytes) {
        Ok(sheet) => ReadSheet { number: 0, sheet },
        Err(refusal) => ReadSheet {
            number: refusal.number(),
            sheet: ZERO_SHEET,
        },
    }
}
