// A sheet whose fields are in range: whoever is handed one need not ask.
ghost use Rattle.std.specs.Prelude.{◌≡◌};
ghost use Rattle.model.specs.View.{view_of};
ghost use Rattle.model.specs.Refusal.{fields_refusal};

use model::Sheet;

// A sheet whose fields are in range, 4 to 8. 01 fixes the sheet's own struct, which can hold no such fact.
#[derive(Clone, Copy)]
pub struct Ranged {
    pub sheet: Sheet,
    pub ghost fields: { fields_refusal (view_of sheet) ≡ 0 },
}
