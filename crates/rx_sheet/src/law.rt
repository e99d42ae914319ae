ghost use Rattle.std.specs.Prelude.{◌≡◌, ◌↔◌, ℕ, List, Ok, Err};
ghost use Rattle.rx_ledger.specs.Plan.{Plan};
ghost use Rattle.rx_sheet.specs.Said.{HasFault, IsSheetText};
ghost use Rattle.rx_sheet.specs.SheetText.{sheet_of_text};
ghost use Rattle.rx_sheet.specs.declared.fault.SheetFault.{SheetFault};

/// What a text's keys say and what is read of it are one: it is read as a plan exactly where its keys say that plan, and
/// has a fault exactly where that is the fault of the first key, by number, that says nothing. So no text says two plans,
/// or a plan and has a fault, and each text does one of the two (docs/FORMATS.md, "Plan sheet").
pub fn one_reading()
    ensures reads { (text : List ℕ) → (plan : Plan) → IsSheetText text plan ↔ (sheet_of_text text ≡ Ok plan) }
    ensures refuses { (text : List ℕ) → (fault : SheetFault) → HasFault text fault ↔ (sheet_of_text text ≡ Err fault) }
{}
