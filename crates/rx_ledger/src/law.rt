ghost use Rattle.std.specs.Prelude.{◌≡◌, ℕ, List, false};
ghost use Rattle.rx_d0_values.specs.declared.transmission.Transmission.{Transmission};
ghost use Rattle.rx_fields.specs.Numbered.{LotParts};
ghost use Rattle.rx_fields.specs.declared.key.Key.{Key};
ghost use Rattle.rx_ledger.specs.Fold.{fold_ledger};
ghost use Rattle.rx_ledger.specs.Ledger.{Ledger, row_under};
ghost use Rattle.rx_ledger.specs.Named.{is_named};
ghost use Rattle.rx_ledger.specs.Plan.{Plan};

/// What adjudicating a batch keeps, for every lot, plan, ledger and list of transmissions: all the members, and
/// whatever stands under a fill key that no billing or reversal of the batch names, be it a row or none. So a batch
/// touches no other claim than those that it bills or reverses (docs/GUARANTEES.md, "Record and fold").
pub fn adjudication_keeps()
    ensures members { (lot : LotParts) → (plan : Plan) → (place : ℕ) → (transmissions : List Transmission)
        → (L : Ledger) → (fold_ledger lot plan place transmissions L).members ≡ L.members }
    ensures unnamed { (lot : LotParts) → (plan : Plan) → (place : ℕ) → (transmissions : List Transmission)
        → (L : Ledger) → (key : Key) → is_named key transmissions ≡ false
        → row_under (fold_ledger lot plan place transmissions L) key ≡ row_under L key }
{}
