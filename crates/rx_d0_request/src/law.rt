ghost use Rattle.std.specs.Prelude.{◌≡◌, ℕ, true, List, [], ◌∷◌, codes, length, map, All};
ghost use Rattle.rx_fields.specs.Text.{IsId};
ghost use Rattle.rx_fields.specs.declared.door.Door.{Door};
ghost use Rattle.rx_d0_values.specs.Listed.{is_few};
ghost use Rattle.rx_d0_values.specs.declared.bill.BillParts.{BillParts};
ghost use Rattle.rx_d0_values.specs.declared.transaction.Reversal.{Reversal};
ghost use Rattle.rx_d0_values.specs.declared.transaction.Transaction.TheVariants as transaction;
ghost use Rattle.rx_d0_request.specs.Request.{transmission_of};
ghost use Rattle.rx_d0_request.specs.Written.{Asker, IsAsker, IsBillOf, IsDoor, IsReversal, base_asker, base_bill};
ghost use Rattle.rx_d0_request.specs.Written.{base_claim, base_door, billing_text, heard_of, reversal_text};

/// Requests that are written are read back: one to four billings of a member, or one to four reversals, each value within
/// its limits and in its one spelling, are accepted as just these, at the door that they name (docs/FORMATS.md, "Request
/// transmission"). So the grammar of `decode` has no request by accident: it is what its fields say.
pub fn written_is_heard()
    ensures billings { (door : Door) → (who : Asker) → (family : List ℕ) → (person : List ℕ) → (bills : List BillParts)
        → IsDoor door → IsAsker who → IsId 20 family → IsId 3 person → All (IsBillOf family person) bills
        → is_few (length bills) ≡ true
        → transmission_of door (billing_text door who family person bills)
        ≡ heard_of (codes "B1") who (map (λ b. transaction.Bill b) bills) }
    ensures reversals { (door : Door) → (who : Asker) → (reversals : List Reversal)
        → IsDoor door → IsAsker who → All IsReversal reversals → is_few (length reversals) ≡ true
        → transmission_of door (reversal_text door who reversals)
        ≡ heard_of (codes "B2") who (map (λ r. transaction.Reverse r) reversals) }
    // What is written of the base claim's values is the base claim, to the byte.
    ensures base_claim { billing_text base_door base_asker (codes "C100") (codes "01") (base_bill ∷ []) ≡ base_claim }
{}
