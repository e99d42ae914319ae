ghost use Rattle.std.specs.Prelude.{◌≡◌, ◌≤◌, true};
ghost use Rattle.std.specs.List.{list_any};
ghost use Rattle.rx_ledger.specs.Answers.{is_too_soon};
ghost use Rattle.rx_books_family.specs.FamilyBook.{has_person};
ghost use Rattle.rx_books_parcel.specs.Parcels.{IsParcel};
ghost use Rattle.rx_adjudicate.specs.Scopes.{IsAgreed, used_over};

use rx_books_family::Family;
use rx_books_parcel::Parcel;
use rx_d0_values::Bill;
use rx_fields::{Day, Id, Key, Memory, Person};
use rx_ledger::{Basis, Figures, Member, MemberKey, Row, Used, is_too_soon};
use std::marker::Model;

/// A parcel whose books agree: it answers as the ledger of its books only.
#[derive(Drop)]
pub(crate) struct Agreed {
    parcel: Parcel,
}

impl Model for Agreed {
    ghost use Rattle.rx_books_parcel.specs.Parcels.{ParcelParts};
    ghost use Rattle.rx_adjudicate.specs.Scopes.{IsAgreed};

    ghost Value = { ParcelParts };

    ghost view = { λ a. a.parcel };

    ghost invariant = { λ a. IsAgreed a.parcel };
}

impl Agreed {
    // The parcel, to be adjudicated on.
    pub(crate) fn new(parcel: Parcel) -> Agreed
        requires { IsAgreed parcel }
        ensures value { result ≡ parcel }
        ensures within { IsAgreed result }
    {
        Agreed { parcel }
    }

    // The parcel as it is now.
    pub(crate) fn into_parcel(self) -> Parcel
        ensures value { result ≡ self }
        ensures within { IsAgreed self }
    {
        let Agreed { parcel } = self;
        parcel
    }
}

impl Basis for Agreed {
    ghost use Rattle.rx_books_parcel.specs.Parcels.{ledger_in};
    ghost use Rattle.rx_adjudicate.specs.Scopes.{scope_in};

    ghost ledger = { ledger_in };

    ghost scope = { scope_in };

    fn row_under(&self, key: &Key) -> Option<Row> {
        self.parcel.row(key)
    }

    fn has_members(&self, family: &Id) -> bool {
        match self.parcel.family(family) {
            Some(book) => !book.members().is_empty(),
            None => false,
        }
    }

    fn member(&self, key: &MemberKey) -> Option<Member> {
        self.parcel.member(&key.family, &key.person)
    }

    fn used(&self, _figures: &Figures, key: &MemberKey) -> Used {
        match self.parcel.family(&key.family) {
            Some(book) => used_in(book, &key.person),
            None => unreachable!(),
        }
    }

    fn is_too_soon(&self, figures: &Figures, date: Day, bill: &Bill) -> bool {
        let rows = self.parcel.rows(&bill.parts().family);
        is_any_too_soon(rows, figures, date, bill)
    }

    fn add(&mut self, row: Row) -> Result<(), Memory> {
        self.parcel.add(row)?;
        Ok(())
    }

    fn remove(&mut self, key: &Key) -> Result<(), Memory> {
        self.parcel.remove(key);
        Ok(())
    }
}

// What a person of a family, who is listed in its book, and the family have used.
fn used_in(book: &Family, person: &Person) -> Used
    requires { has_person book.now person.now ≡ true }
    ensures { result ≡ used_over book.now.period book.now.rows person.now }
{
    match book.deductible(person) {
        Some(deductible) => Used {
            deductible,
            out_of_pocket: book.out_of_pocket(),
            family_deductible: book.family_deductible(),
        },
        None => unreachable!(),
    }
}

// Whether one of the rows makes the billing a refill too soon.
fn is_any_too_soon(rows: &[Row], figures: &Figures, date: Day, bill: &Bill) -> bool
    requires { figures.now.refill_percent ≤ 100 }
    ensures { result ≡ list_any (is_too_soon figures.now date bill.now) rows.now }
{
    rows.iter().any(|row| is_too_soon(figures, date, bill, row))
}
