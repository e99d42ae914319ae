ghost use Rattle.std.specs.Prelude.{◌≡◌, ◌≤◌, ℕ, List, Some, max};
ghost use Rattle.rx_d0_values.specs.declared.transmission.Transmission.{Transmission};
ghost use Rattle.rx_fields.specs.Numbered.{LotParts};
ghost use Rattle.rx_ledger.specs.Fold.{fold_ledger};
ghost use Rattle.rx_ledger.specs.Ledger.{IsLedger, Ledger};
ghost use Rattle.rx_ledger.specs.Plan.{Plan};
ghost use Rattle.rx_ledger.specs.Sums.{deductible, family_deductible, out_of_pocket};

/// No accumulator passes its limit by adjudication, for every lot, plan, ledger and list of transmissions, all sums
/// over the plan's period: a family's out of pocket is at most the plan's maximum, or what it was before where that is
/// more; a member's deductible at most the plan's, or what it was; and so a family's, where the plan has one. The front
/// of a batch is such a list, so it holds after each record (docs/RULES.md, "Rules of adjudication").
pub fn accumulators_stay_within()
    ensures family { (lot : LotParts) → (plan : Plan) → (place : ℕ) → (transmissions : List Transmission)
        → (L : Ledger) → IsLedger L → (family : List ℕ)
        → out_of_pocket plan.figures.period (fold_ledger lot plan place transmissions L) family
        ≤ max plan.figures.family_maximum (out_of_pocket plan.figures.period L family) }
    ensures member { (lot : LotParts) → (plan : Plan) → (place : ℕ) → (transmissions : List Transmission)
        → (L : Ledger) → IsLedger L → (family : List ℕ) → (person : List ℕ)
        → deductible plan.figures.period (fold_ledger lot plan place transmissions L) family person
        ≤ max plan.figures.member_deductible (deductible plan.figures.period L family person) }
    ensures together { (lot : LotParts) → (plan : Plan) → (place : ℕ) → (transmissions : List Transmission)
        → (L : Ledger) → IsLedger L → (family : List ℕ) → (limit : ℕ) → plan.figures.family_deductible ≡ Some limit
        → family_deductible plan.figures.period (fold_ledger lot plan place transmissions L) family
        ≤ max limit (family_deductible plan.figures.period L family) }
{}
