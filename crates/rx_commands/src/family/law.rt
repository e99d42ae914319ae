ghost use Rattle.std.specs.Prelude.{◌≡◌, ◌++◌, ◌∷◌, [], ℕ, List, Some, filter, true};
ghost use Rattle.rx_fields.specs.Numbered.{Span};
ghost use Rattle.rx_ledger.specs.declared.row.Row.{Row};
ghost use Rattle.rx_ledger.specs.Sums.{deductible_in, family_deductible_in, out_of_pocket_in};
ghost use Rattle.rx_print.specs.JsonData.{ReadsAs};
ghost use Rattle.rx_commands.specs.declared.family.families.Family.{Family};
ghost use Rattle.rx_commands.specs.declared.family.sums.Claim.{Claim};
ghost use Rattle.rx_commands.specs.declared.family.sums.Limits.{Limits};
ghost use Rattle.rx_commands.specs.FamilyData.{family_data};
ghost use Rattle.rx_commands.specs.FamilyLaw.{IsReached, is_of};
ghost use Rattle.rx_commands.specs.FamilySums.{AreClaims, claims_of};
ghost use Rattle.rx_commands.specs.FamilyTables.{family_json};

/// The law of a family's claims, for every period, limits and rows. A claim that reaches a limit is the first with which the
/// running sum is no longer below it, of the member's own claims where it is the member's deductible; and the last running
/// sums are those over all rows, of a member's deductible that of its last claim.
pub fn law_of_claims()
    ensures deductible { (limits : Limits) → (period : Span) → (rows : List Row) → (xs ys zs : List Claim) → (x c : Claim)
        → claims_of limits period rows ≡ xs ++ x ∷ (ys ++ c ∷ zs) → (figure : ℕ) → limits.deductible ≡ Some figure
        → c.deductible.reaches ≡ true → is_of c.row.person x ≡ true
        → IsReached figure x.deductible.sum c.deductible.sum }
    ensures family_deductible { (limits : Limits) → (period : Span) → (rows : List Row) → (xs ys zs : List Claim)
        → (x c : Claim) → claims_of limits period rows ≡ xs ++ x ∷ (ys ++ c ∷ zs) → (figure : ℕ)
        → limits.family_deductible ≡ Some figure → c.family_deductible.reaches ≡ true
        → IsReached figure x.family_deductible.sum c.family_deductible.sum }
    ensures out_of_pocket { (limits : Limits) → (period : Span) → (rows : List Row) → (xs ys zs : List Claim)
        → (x c : Claim) → claims_of limits period rows ≡ xs ++ x ∷ (ys ++ c ∷ zs) → (figure : ℕ)
        → limits.out_of_pocket ≡ Some figure → c.out_of_pocket.reaches ≡ true
        → IsReached figure x.out_of_pocket.sum c.out_of_pocket.sum }
    ensures last_own { (limits : Limits) → (period : Span) → (rows : List Row) → (claims xs ys : List Claim) → (c : Claim)
        → AreClaims limits period rows claims → claims ≡ xs ++ c ∷ ys → filter (is_of c.row.person) ys ≡ []
        → c.deductible.sum ≡ deductible_in period rows c.row.person }
    ensures last_deductible { (limits : Limits) → (period : Span) → (rows : List Row) → (claims xs ys : List Claim)
        → (c : Claim) → AreClaims limits period rows claims → claims ≡ xs ++ c ∷ ys → ys ≡ []
        → c.family_deductible.sum ≡ family_deductible_in period rows }
    ensures last_out_of_pocket { (limits : Limits) → (period : Span) → (rows : List Row) → (claims xs ys : List Claim)
        → (c : Claim) → AreClaims limits period rows claims → claims ≡ xs ++ c ∷ ys → ys ≡ []
        → c.out_of_pocket.sum ≡ out_of_pocket_in period rows }
{}

/// What `family_text` writes as JSON is JSON: it is read as one object with the family's id and period, each member with its
/// coverage and deductible, the family's sums with what is left of each limit, and each claim in its order with the sums up
/// to it. Each name has the family's own value, and null what isn't known.
pub fn family_reads_as_json()
    ensures { (f : Family) → ReadsAs (family_json f) (family_data f) }
{}
