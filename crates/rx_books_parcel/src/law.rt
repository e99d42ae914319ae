ghost use Rattle.std.specs.Prelude.{◌≡◌, ℕ, true, false};
ghost use Rattle.rx_fields.specs.Numbered.{LotParts};
ghost use Rattle.rx_d0_values.specs.declared.transmission.Transmission.{Transmission};
ghost use Rattle.rx_ledger.specs.Fold.{ledger_after, reply_to};
ghost use Rattle.rx_ledger.specs.Ledger.{Ledger};
ghost use Rattle.rx_ledger.specs.Plan.{Plan};
ghost use Rattle.rx_books_family.specs.Books.{Book, IsInOrder, book};
ghost use Rattle.rx_books_parcel.specs.Footprints.{AreAgreed, FootprintParts, cut, fits, names, sub};

/// The law of locality, for every lot, plan, place, record and ledger, and every footprint that fits the record there:
/// on the ledger of the footprint's books only the record gives the reply that it gives on the whole ledger, and the
/// books of the footprint that the whole ledger then has, put together and nothing else; and it changes no other book.
/// Whether the footprint fits can be seen from its books only, and these agree (docs/GUARANTEES.md, "Book values").
pub fn law_of_locality()
    ensures reply { (lot : LotParts) → (plan : Plan) → (place : ℕ) → (F : FootprintParts) → (t : Transmission)
        → (L : Ledger) → IsInOrder L → fits F t L ≡ true
        → reply_to lot plan place t (sub F (cut F L)) ≡ reply_to lot plan place t L }
    ensures inside { (lot : LotParts) → (plan : Plan) → (place : ℕ) → (F : FootprintParts) → (t : Transmission)
        → (L : Ledger) → IsInOrder L → fits F t L ≡ true → (b : Book) → names F b ≡ true
        → book b (ledger_after lot plan place t (sub F (cut F L))) ≡ book b (ledger_after lot plan place t L) }
    ensures whole { (lot : LotParts) → (plan : Plan) → (place : ℕ) → (F : FootprintParts) → (t : Transmission)
        → (L : Ledger) → IsInOrder L → fits F t L ≡ true
        → ledger_after lot plan place t (sub F (cut F L)) ≡ sub F (cut F (ledger_after lot plan place t L)) }
    ensures outside { (lot : LotParts) → (plan : Plan) → (place : ℕ) → (F : FootprintParts) → (t : Transmission)
        → (L : Ledger) → IsInOrder L → fits F t L ≡ true → (b : Book) → names F b ≡ false
        → book b (ledger_after lot plan place t L) ≡ book b L }
    ensures fitting { (F : FootprintParts) → (t : Transmission) → (L : Ledger) → IsInOrder L
        → fits F t (sub F (cut F L)) ≡ fits F t L }
    ensures agreed { (F : FootprintParts) → (L : Ledger) → IsInOrder L → AreAgreed F (cut F L) }
{}
