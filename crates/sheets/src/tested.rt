// A sheet that passed its tests, 4 to 10, with its sizes: whoever is handed one need not ask.
ghost use Rattle.std.specs.Prelude.{◌≡◌, IfOk};
ghost use Rattle.model.specs.View.{view_of};
ghost use Rattle.model.specs.Refusal.{fields_refusal, sheet_refusal, value_limit};
ghost use Rattle.refusals.specs.Numbers.{number_of};
ghost use Rattle.sheets.specs.Sizes.{Sized, Measured};

use crate::refusal::sheet_refusal;
use crate::sizes::{Sizes, sizes_of};
use counts::Counts;
use model::Sheet;
use ranges::Ranged;
use refusals::Refusal;

// A sheet whose fields are in range, and sizes that are in range and not too many.
#[derive(Clone, Copy)]
pub struct Tested {
    pub sheet: Sheet,
    pub sizes: Sizes,
    pub ghost fields: { fields_refusal (view_of sheet) ≡ 0 },
    pub ghost measured: { Measured sizes },
}

impl Tested {
    // Tests a sheet and works out its sizes.
    pub fn new(counts: &Counts, sheet: Sheet) -> Result<Tested, Refusal>
        ensures number { number_of result ≡ sheet_refusal value_limit (view_of sheet) }
        ensures sized { IfOk result (λ tested. (tested.sheet ≡ sheet) × Sized (view_of sheet) tested.sizes) }
    {
        sheet_refusal(counts, sheet)?;
        let sizes = sizes_of(counts, Ranged { sheet });
        Ok(Tested { sheet, sizes })
    }

    // The sheet, for what asks for its fields alone, 4 to 8.
    pub fn ranged(&self) -> Ranged
        ensures { result.sheet ≡ self.now.sheet }
    {
        Ranged { sheet: self.sheet }
    }
}
