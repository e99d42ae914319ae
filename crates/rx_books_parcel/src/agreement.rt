ghost use Rattle.std.specs.Prelude.{◌≡◌, ◌↔◌, IsTrue, not};
ghost use Rattle.std.specs.List.{list_all};
ghost use Rattle.rx_ledger.specs.Ledger.{is_taken};
ghost use Rattle.rx_books_parcel.specs.Agreement.{agree, are_apart, are_under_keys, is_in_family, is_under_key};
ghost use Rattle.rx_books_family.specs.FamilyBook.{own_ledger};
ghost use Rattle.rx_books_parcel.specs.Parcels.{Agrees, IsParcel};

use crate::parcel::Parcel;
use rx_books_family::Family;
use rx_ledger::Row;

impl Parcel {
    /// Whether its books agree: no two different rows have one fill key, and a row stands in each book held that it is
    /// of (docs/GUARANTEES.md, "Book values").
    pub fn agrees(&self) -> bool
        ensures { IsTrue result ↔ Agrees self.now }
    {
        self.passes()
    }

    // Whether its books pass all tests.
    fn passes(&self) -> bool
        ensures value { result ≡ agree self.now }
        ensures within { IsParcel self.now }
    {
        let families = self.families();
        self.are_in_families() && self.are_all_under_keys() && are_all_apart(families)
    }

    // Whether the row of each key is in the book of its family, where this is held.
    fn are_in_families(&self) -> bool
        ensures { result ≡ list_all (λ s. is_in_family self.now s.row) self.now.keys }
    {
        self.keys().iter().all(|book| self.is_in_family(book.row))
    }

    // Whether each row of each family stands under its key, where the key's book is held.
    fn are_all_under_keys(&self) -> bool
        ensures { result ≡ list_all (are_under_keys self.now) self.now.families }
    {
        self.families()
            .iter()
            .all(|family| self.are_under_keys(family))
    }

    // Whether the row, if there is one, is in the book of its family, where this is held.
    fn is_in_family(&self, row: Option<Row>) -> bool
        ensures { result ≡ is_in_family self.now row }
    {
        match row {
            Some(row) => match self.family(&row.family) {
                Some(family) => family.row(&row.key) == Some(row),
                None => true,
            },
            None => true,
        }
    }

    // Whether the row stands under its key, where the key's book is held.
    fn is_under_key(&self, row: &Row) -> bool
        ensures { result ≡ is_under_key self.now row.now }
    {
        !self.has_key(&row.key) || self.row(&row.key) == Some(*row)
    }

    // Whether each row of the family does.
    fn are_under_keys(&self, family: &Family) -> bool
        ensures { result ≡ are_under_keys self.now family.now }
    {
        family.rows().iter().all(|row| self.is_under_key(row))
    }
}

// Whether no two of the families have rows under one key.
fn are_all_apart(families: &[Family]) -> bool
    ensures { result ≡ list_all (λ b. list_all (are_apart b) families.now) families.now }
{
    families
        .iter()
        .all(|family| are_apart_from(families, family))
}

// Whether the family has no row under a key of a row of another family.
fn are_apart_from(families: &[Family], family: &Family) -> bool
    ensures { result ≡ list_all (are_apart family.now) families.now }
{
    families.iter().all(|other| are_apart(family, other))
}

// Whether these are one family, or have no rows under one key.
#[tactic(auto, using(rx_ledger::proofs::SameText::same_text))]
fn are_apart(family: &Family, other: &Family) -> bool
    ensures { result ≡ are_apart family.now other.now }
{
    family.family() == other.family() || has_no_key_of(other, family.rows())
}

// Whether no row of the family is under the key of one of these.
fn has_no_key_of(family: &Family, rows: &[Row]) -> bool
    ensures { result ≡ list_all (λ r. not (is_taken (own_ledger family.now) r.key)) rows.now }
{
    rows.iter().all(|row| family.row(&row.key).is_none())
}
