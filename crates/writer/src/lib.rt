// The writer: puts a sheet's bytes into a lent buffer. They are counted before any is put, so that a refused write touches nothing. Its call
// takes any sheet in memory and any buffer. What it refuses, it refuses with a number.
#![tactic(auto)]

ghost use Rattle.writer.specs.Calls.{IsWritten};
ghost use Rattle.model.specs.View.{view_of};
ghost use Rattle.refusals.specs.Numbers.{number_of};
ghost use Rattle.sinks.specs.Laws.{length_of};

mod entries;
mod numbers;
mod whole;

use counts::Counts;
use model::Sheet;
use ranges::Ranged;
use refusals::Refusal;
use sheets::sheet_refusal;
use whole::Coded;

// The number 0 with how many bytes were written, or a refusal's number with 0: document 01 fixes this form.
#[derive(Clone, Copy)]
pub struct Written {
    pub number: u32,
    pub length: usize,
}

// Writes a sheet, or refuses to; answers how long it is.
fn write_sheet(sheet: Sheet, buffer: &mut [u8]) -> Result<usize, Refusal>
    ensures { IsWritten (view_of sheet) buffer.old (number_of result) (length_of result) buffer.new }
{
    sheet_refusal(&Counts::new(), sheet)?;
    let coded = Coded {
        sheet: Ranged { sheet },
    };
    sinks::write(coded, buffer)
}

// Writes a sheet.
pub fn write(sheet: Sheet, buffer: &mut [u8]) -> Written
    ensures { IsWritten (view_of sheet) buffer.old result.number result.length buffer.new }
{
    match write_sheet(sheet, buffer) {
        Ok(length) => Written { number: 0, length },
        Err(refusal) => Written {
            number: refusal.number(),
            length: 0,
        },
    }
}
