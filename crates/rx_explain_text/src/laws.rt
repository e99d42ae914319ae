ghost use Rattle.std.specs.Prelude.{◌≡◌, ℕ, List, Option};
ghost use Rattle.rx_d0_values.specs.declared.transmission.Rejected.{Rejected};
ghost use Rattle.rx_explain.specs.Seen.{IsAlike, IsSeen};
ghost use Rattle.rx_explain.specs.declared.explanation.Explanation.{Explanation};
ghost use Rattle.rx_explain_text.specs.ExplanationData.{explanation_data, rejection_data};
ghost use Rattle.rx_explain_text.specs.Json.{explanation_object, rejection_object};
ghost use Rattle.rx_explain_text.specs.Texts.{explanation_words};
ghost use Rattle.rx_explain_text.specs.declared.compared.Compared.{Compared};
ghost use Rattle.rx_explain_text.specs.declared.counted.Listing.{Listing};
ghost use Rattle.rx_fields.specs.Numbered.{LotParts};
ghost use Rattle.rx_ledger.specs.declared.figures.Figures.{Figures};
ghost use Rattle.rx_print.specs.JsonData.{ReadsAs};

/// What is written of an explanation as JSON is JSON: it is read as one object, in which each name has the explanation's
/// own value; and so is what is written of a record whose header is rejected.
pub fn explanations_read_as_json()
    ensures explained { (lot : LotParts) → (figures : Figures) → (e : Explanation) → (request : List ℕ)
        → (tier : Option (List ℕ)) → (c : Option Compared)
        → ReadsAs (explanation_object lot figures e request tier c) (explanation_data lot figures e request tier c) }
    ensures rejected { (place : ℕ) → (r : Rejected) → (request : List ℕ) → (c : Option Compared)
        → ReadsAs (rejection_object place r request c) (rejection_data place r request c) }
{}

/// The text that a pharmacy gets of its transaction, in words or as JSON, has of other pharmacies' claims nothing but dates and
/// amounts: of two explanations that differ only in names, products, prescriptions and pharmacies of other pharmacies' claims,
/// and in the order that hangs on these, it has one text.
pub fn others_stay_hidden()
    ensures words { (x y u v : Explanation) → IsAlike x y → IsSeen x u → IsSeen y v → (listing : Listing) → (lot : LotParts)
        → (figures : Figures) → (request : List ℕ) → (tier : Option (List ℕ)) → (c : Option Compared)
        → explanation_words listing lot figures u request tier c ≡ explanation_words listing lot figures v request tier c }
    ensures object { (x y u v : Explanation) → IsAlike x y → IsSeen x u → IsSeen y v → (lot : LotParts) → (figures : Figures)
        → (request : List ℕ) → (tier : Option (List ℕ)) → (c : Option Compared)
        → explanation_object lot figures u request tier c ≡ explanation_object lot figures v request tier c }
{}
