ghost use Rattle.std.specs.Prelude.{◌≡◌, ◌+◌, ℕ, List, Some, filter, slice_get, sum_by, take, true};
ghost use Rattle.rx_d0_values.specs.declared.transaction.Transaction.{Transaction};
ghost use Rattle.rx_d0_values.specs.declared.transmission.Heard.{Heard as HeardRecord};
ghost use Rattle.rx_d0_values.specs.declared.transmission.Transmission.{Transmission};
ghost use Rattle.rx_fields.specs.Numbered.{LotParts, Span};
ghost use Rattle.rx_fields.specs.Order.{key_cmp};
ghost use Rattle.rx_sorted.specs.Ascending.{IsAscending};
ghost use Rattle.rx_ledger.specs.declared.decision.Decision.TheVariants as decision;
ghost use Rattle.rx_ledger.specs.declared.row.Row.{Row};
ghost use Rattle.rx_ledger.specs.Answers.{answer};
ghost use Rattle.rx_ledger.specs.Decisions.{decision_of};
ghost use Rattle.rx_ledger.specs.Fold.{answers_from, asked, fold_ledger, fold_replies, ledger_from, reply_to};
ghost use Rattle.rx_ledger.specs.Ledger.{IsLedger, Ledger, row_under, rows_of};
ghost use Rattle.rx_ledger.specs.Members.{is_same};
ghost use Rattle.rx_ledger.specs.Plan.{Plan};
ghost use Rattle.rx_ledger.specs.Rows.{row_key};
ghost use Rattle.rx_ledger.specs.Sums.{deductible, deductible_paid, family_deductible, out_of_pocket, paid_by_patient};
ghost use Rattle.rx_explain.specs.declared.at.At.{At};
ghost use Rattle.rx_explain.specs.declared.events.Event.{Event};
ghost use Rattle.rx_explain.specs.declared.explanation.Explanation.{Explanation};
ghost use Rattle.rx_explain.specs.Explained.{IsExplained, IsOnLedger};
ghost use Rattle.rx_explain.specs.Names.{DifferInNames};
ghost use Rattle.rx_explain.specs.Reckoned.{IsAccountedFor};
ghost use Rattle.rx_explain.specs.Seen.{IsAlike, IsSameSaid, IsSeen};
ghost use Rattle.rx_explain.specs.Shown.{counted_rows};
ghost use Rattle.rx_explain.specs.Spots.{Spot, spot_at};
ghost use Rattle.rx_explain.specs.declared.traced.Source.TheVariants as source;
ghost use Rattle.rx_explain.specs.declared.traced.Traced.{Traced};
ghost use Rattle.rx_explain.specs.Before.{ledger_before};
ghost use Rattle.rx_explain.specs.Sources.{IsBefore, IsPaidAt, IsShown, IsTakenBackAt, StandsAfter, StandsBefore, StandsBetween};
ghost use Rattle.rx_explain.specs.Sources.{StandsUpTo, TakesBack, traced_at};

/// The answer that an explanation shows is the one in the batch's replies: the reply to a record is that on the ledger
/// which the records before it leave, and its answers are each that on the ledger which the transactions before it leave
/// (docs/GUARANTEES.md, "Record and fold").
pub fn reply_is_shown()
    ensures record_is { (lot : LotParts) → (plan : Plan) → (ts : List Transmission) → (L : Ledger) → (before : ℕ)
        → (t : Transmission) → slice_get ts before ≡ Some t
        → slice_get (fold_replies lot plan 1 ts L) before
        ≡ Some (reply_to lot plan (1 + before) t (fold_ledger lot plan 1 (take before ts) L)) }
    ensures transaction_is { (lot : LotParts) → (plan : Plan) → (place : ℕ) → (h : HeardRecord) → (L : Ledger) → (before : ℕ)
        → (t : Transaction) → slice_get h.list before ≡ Some t
        → slice_get (answers_from lot plan place h 1 h.list L) before
        ≡ Some (answer (asked lot plan place h (1 + before)) (ledger_from lot plan place h 1 (take before h.list) L) t) }
{}

/// Where a claim that stands before a transaction is said to come from, and when it is said to be taken back, is so: the
/// transaction that is named paid it, else it is in the opening books, and it stood ever since; the later transaction that
/// is named takes it back, else it stands to the end of the batch, and it stands until then. A claim that this transaction
/// takes back itself is the one that its decision names. Each claim that an explanation shows is such a claim, and it is
/// shown so, where the opening books are in order.
pub fn sources_are_true()
    ensures paid_by { (lot : LotParts) → (plan : Plan) → (ts : List Transmission) → (opening : Ledger) → (at : At)
        → (s : Spot) → (r : Row) → spot_at ts at ≡ Some s → StandsBefore lot plan ts opening r at s
        → (paid : At) → (traced_at lot plan ts opening at r).source ≡ source.Record paid
        → IsBefore paid at × IsPaidAt lot plan ts opening r paid × StandsBetween lot plan ts opening paid at r }
    ensures opening { (lot : LotParts) → (plan : Plan) → (ts : List Transmission) → (opening : Ledger) → (at : At)
        → (s : Spot) → (r : Row) → spot_at ts at ≡ Some s → StandsBefore lot plan ts opening r at s
        → (traced_at lot plan ts opening at r).source ≡ source.Opening
        → (row_under opening r.key ≡ Some r) × StandsUpTo lot plan ts opening at r }
    ensures taken_back { (lot : LotParts) → (plan : Plan) → (ts : List Transmission) → (opening : Ledger) → (at : At)
        → (s : Spot) → (r : Row) → spot_at ts at ≡ Some s → StandsBefore lot plan ts opening r at s
        → ¬ TakesBack lot plan ts opening r at s
        → (back : At) → (traced_at lot plan ts opening at r).taken_back ≡ Some back
        → IsBefore at back × IsTakenBackAt lot plan ts opening r back × StandsBetween lot plan ts opening at back r }
    ensures still_stands { (lot : LotParts) → (plan : Plan) → (ts : List Transmission) → (opening : Ledger) → (at : At)
        → (s : Spot) → (r : Row) → spot_at ts at ≡ Some s → StandsBefore lot plan ts opening r at s
        → ¬ TakesBack lot plan ts opening r at s
        → (traced_at lot plan ts opening at r).taken_back ≡ None
        → StandsAfter lot plan ts opening at r
        × (row_under (fold_ledger lot plan 1 ts opening) r.key ≡ Some r) }
    ensures taken_back_now { (lot : LotParts) → (plan : Plan) → (ts : List Transmission) → (opening : Ledger) → (at : At)
        → (s : Spot) → (r : Row) → StandsBefore lot plan ts opening r at s → TakesBack lot plan ts opening r at s
        → decision_of (asked lot plan at.place s.heard at.nth) (ledger_before lot plan ts opening at.place s.heard at.nth)
        s.transaction ≡ decision.TakenBack r }
    ensures shown { (lot : LotParts) → (plan : Plan) → (ts : List Transmission) → (opening : Ledger) → (at : At)
        → (s : Spot) → (x : Explanation) → (t : Traced) → IsAscending key_cmp row_key opening.rows
        → IsExplained lot plan ts opening at (Some s) (Some x) → IsShown x t
        → (t ≡ traced_at lot plan ts opening at t.row) × StandsBefore lot plan ts opening t.row at s }
{}

/// The rows that an explanation lists for an accumulator sum to it: to a family's out of pocket and to its deductible all
/// rows that are counted, to a member's deductible those of the person.
pub fn sums_are_of_counted_rows()
    ensures out_of_pocket { (period : Span) → (L : Ledger) → (family : List ℕ)
        → out_of_pocket period L family ≡ sum_by paid_by_patient (counted_rows period L family) }
    ensures family_deductible { (period : Span) → (L : Ledger) → (family : List ℕ)
        → family_deductible period L family ≡ sum_by deductible_paid (counted_rows period L family) }
    ensures deductible { (period : Span) → (L : Ledger) → (family : List ℕ) → (person : List ℕ)
        → deductible period L family person
        ≡ sum_by deductible_paid (filter (λ r. is_same r.person person) (counted_rows period L family)) }
{}

/// The steps of an explanation lead to its answer: allowed, deductible, copay or coinsurance, what the member pays and what
/// the plan pays follow from the figures that are shown; each figure that is left is the plan's less what was used, and what
/// was used is the sum over exactly the claims that are shown (docs/RULES.md, "Rules of adjudication").
pub fn steps_lead_to_the_answer()
    ensures { (lot : LotParts) → (plan : Plan) → (L : Ledger) → (events : List Event) → (at : At) → (s : Spot)
        → (x : Explanation) → IsOnLedger lot plan L events at s x → IsAccountedFor plan x }
{}

/// What a pharmacy may see of its transaction has of other pharmacies' claims nothing but dates and amounts: of two
/// explanations that differ only in names, products, prescriptions and pharmacies of other pharmacies' claims, and in the order
/// that hangs on these, the same is seen.
pub fn others_stay_unnamed()
    ensures { (x y u v : Explanation) → IsAlike x y → IsSeen x u → IsSeen y v → IsSameSaid u v }
{}

/// Names of other pharmacies decide nothing for a pharmacy: in two jobs that differ only in names, products, prescriptions and
/// pharmacies of other pharmacies' claims, each of its transactions stands at the same place, and is explained alike.
pub fn others_names_decide_nothing()
    ensures stands { (own : List ℕ) → (plan : Plan) → (ts us : List Transmission) → (L M : Ledger) → IsLedger L
        → DifferInNames own plan ts us L M → (at : At) → (s : Spot) → spot_at ts at ≡ Some s
        → is_same s.heard.provider own ≡ true → spot_at us at ≡ Some s }
    ensures explained { (own : List ℕ) → (lot : LotParts) → (plan : Plan) → (ts us : List Transmission) → (L M : Ledger)
        → IsLedger L → DifferInNames own plan ts us L M → (at : At) → (s : Spot) → spot_at ts at ≡ Some s
        → is_same s.heard.provider own ≡ true → (x y : Explanation) → IsExplained lot plan ts L at (Some s) (Some x)
        → IsExplained lot plan us M at (Some s) (Some y) → IsAlike x y }
{}
