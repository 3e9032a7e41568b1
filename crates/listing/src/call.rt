// The call: the listing of a planned sheet. Its length is worked out before anything is written, so that a refused call touches nothing.
ghost use Rattle.model.specs.View.{view_of};
ghost use Rattle.refusals.specs.Numbers.{number_of};
ghost use Rattle.sinks.specs.Laws.{length_of};
ghost use Rattle.listing.specs.Calls.{IsListed};

use crate::whole::Listing;
use counts::Counts;
use layout::tested_for;
use lines::{Header, scale_of};
use model::Sheet;
use refusals::Refusal;

// The number 0 with how many bytes were written, or a refusal's number with 0: document 01 fixes this form.
#[derive(Clone, Copy)]
pub struct Listed {
    pub number: u32,
    pub length: usize,
}

// Writes the listing, or refuses to; answers how long it is.
fn write_listing(sheet: Sheet, least: u64, plan: &[u8], buffer: &mut [u8]) -> Result<usize, Refusal>
    ensures { IsListed (view_of sheet) least plan.now buffer.old (number_of result) (length_of result) buffer.new }
{
    let tested = tested_for(&Counts::new(), sheet, plan.len())?;
    let head = Header {
        queues: tested.sizes.queues,
        scale: scale_of(sheet),
        least,
    };
    let listing = Listing {
        head,
        plan,
        slots: sheet.horizon,
    };
    sinks::write(listing, buffer)
}

// Writes the listing of a sheet with its plan, the least energy being what the planner answered.
pub fn list(sheet: Sheet, least: u64, plan: &[u8], buffer: &mut [u8]) -> Listed
    ensures { IsListed (view_of sheet) least plan.now buffer.old
        result.number result.length buffer.new }
{
    match write_listing(sheet, least, plan, buffer) {
        Ok(length) => Listed { number: 0, length },
        Err(refusal) => Listed {
            number: refusal.number(),
            length: 0,
        },
    }
}
