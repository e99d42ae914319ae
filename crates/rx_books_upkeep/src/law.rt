ghost use Rattle.std.specs.Prelude.{◌≡◌, ◌≤◌, ◌↔◌, ℕ, List, true};
ghost use Rattle.std.specs.Ordering.{is_le};
ghost use Rattle.rx_fields.specs.Calendar.{Civil, day_cmp};
ghost use Rattle.rx_fields.specs.Numbered.{LotParts};
ghost use Rattle.rx_d0_values.specs.declared.transmission.Transmission.{Transmission};
ghost use Rattle.rx_sorted.specs.Ascending.{IsAscending};
ghost use Rattle.rx_ledger.specs.declared.member.Member.{Member};
ghost use Rattle.rx_ledger.specs.Fold.{fold_ledger, fold_replies};
ghost use Rattle.rx_ledger.specs.Ledger.{Ledger};
ghost use Rattle.rx_ledger.specs.Members.{member_cmp, member_key};
ghost use Rattle.rx_ledger.specs.Plan.{Plan};
ghost use Rattle.rx_books_family.specs.Books.{IsInOrder};
ghost use Rattle.rx_books_upkeep.specs.Ageing.{IsDatedFrom, IsSafe, aged, dropped};
ghost use Rattle.rx_books_upkeep.specs.Batches.{EachTransaction};
ghost use Rattle.rx_books_upkeep.specs.Loading.{IsLoaded, LeavesBilled, loaded};

/// The law of loading, for every lot, plan, place, batch, ledger and table. A batch that bills no family to which the table
/// adds a member, or of which it changes one, has the same replies on the loaded ledger, and leaves the same ledger with the
/// same table loaded. And what loading is determines the ledger (docs/GUARANTEES.md, "Books between runs").
pub fn law_of_loading()
    ensures one { (L M : Ledger) → (table : List Member) → IsInOrder L → IsAscending member_cmp member_key table
        → IsLoaded L table M ↔ (M ≡ loaded L table) }
    ensures replies { (lot : LotParts) → (plan : Plan) → (place : ℕ) → (transmissions : List Transmission) → (L : Ledger)
        → (table : List Member) → IsInOrder L → EachTransaction (LeavesBilled L table) transmissions
        → fold_replies lot plan place transmissions (loaded L table) ≡ fold_replies lot plan place transmissions L }
    ensures ledger { (lot : LotParts) → (plan : Plan) → (place : ℕ) → (transmissions : List Transmission) → (L : Ledger)
        → (table : List Member) → IsInOrder L → EachTransaction (LeavesBilled L table) transmissions
        → fold_ledger lot plan place transmissions (loaded L table)
        ≡ loaded (fold_ledger lot plan place transmissions L) table }
{}

/// The law of ageing, for every lot, place, batch, ledger and day, and every plan whose period begins on that day or later:
/// on the ledger without the claims before the day a batch has the same replies, and leaves the same ledger without these
/// claims, where all its billings and reversals are dated from a day on that is safe at a percentage which the plan's
/// doesn't exceed. The claims that left stand in the other ledger to the end, as they did (docs/GUARANTEES.md, "Books
/// between runs").
pub fn law_of_ageing()
    ensures replies { (lot : LotParts) → (plan : Plan) → (place : ℕ) → (transmissions : List Transmission) → (L : Ledger)
        → (before day : Civil) → (percent : ℕ) → IsInOrder L
        → is_le (day_cmp before plan.figures.period.first) ≡ true → plan.figures.refill_percent ≤ percent
        → IsSafe percent (dropped before L.rows) day → EachTransaction (IsDatedFrom day) transmissions
        → fold_replies lot plan place transmissions (aged before L) ≡ fold_replies lot plan place transmissions L }
    ensures ledger { (lot : LotParts) → (plan : Plan) → (place : ℕ) → (transmissions : List Transmission) → (L : Ledger)
        → (before day : Civil) → (percent : ℕ) → IsInOrder L
        → is_le (day_cmp before plan.figures.period.first) ≡ true → plan.figures.refill_percent ≤ percent
        → IsSafe percent (dropped before L.rows) day → EachTransaction (IsDatedFrom day) transmissions
        → fold_ledger lot plan place transmissions (aged before L)
        ≡ aged before (fold_ledger lot plan place transmissions L) }
    ensures still { (lot : LotParts) → (plan : Plan) → (place : ℕ) → (transmissions : List Transmission) → (L : Ledger)
        → (before day : Civil) → (percent : ℕ) → IsInOrder L
        → is_le (day_cmp before plan.figures.period.first) ≡ true → plan.figures.refill_percent ≤ percent
        → IsSafe percent (dropped before L.rows) day → EachTransaction (IsDatedFrom day) transmissions
        → dropped before (fold_ledger lot plan place transmissions L).rows ≡ dropped before L.rows }
{}
