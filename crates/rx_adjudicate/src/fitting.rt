ghost use Rattle.std.specs.Prelude.{◌≡◌, ◌↔◌, ◌&&◌, IsTrue};
ghost use Rattle.std.specs.List.{list_all};
ghost use Rattle.rx_ledger.specs.Ledger.{row_under};
ghost use Rattle.rx_books_family.specs.Books.{OfKey};
ghost use Rattle.rx_books_parcel.specs.Footprints.{fits, fits_one, names, names_holder};
ghost use Rattle.rx_books_parcel.specs.Parcels.{Agrees, IsParcel, ledger_in, named_in};
ghost use Rattle.rx_adjudicate.specs.Orders.{Fits};

use rx_books_parcel::Parcel;
use rx_d0_values::{Body, Heard, Transaction, Transmission};
use rx_fields::Key;
use rx_ledger::{Row, Terms};

/// Whether a parcel is enough for a record: it holds the books of each fill key and family that the record names, and
/// of the family of the row under each reversed key that has one; its books agree; its period is that of the terms.
pub fn fits(transmission: &Transmission, terms: &Terms, parcel: &Parcel) -> bool
    ensures { IsTrue result ↔ Fits transmission.now terms.now parcel.now }
{
    if parcel.period() != terms.figures().period {
        return false;
    }
    if !parcel.agrees() {
        return false;
    }
    holds_books(parcel, transmission)
}

// Whether it holds the books of the record.
fn holds_books(parcel: &Parcel, transmission: &Transmission) -> bool
    requires parcel { IsParcel parcel.now }
    requires agrees { Agrees parcel.now }
    ensures { result ≡ fits (named_in parcel.now) transmission.now (ledger_in parcel.now) }
{
    match &transmission.body {
        Body::Rejected(_) => true,
        Body::Heard(heard) => holds_all(parcel, heard),
    }
}

// Whether it holds the books of each transaction of a header that was accepted.
fn holds_all(parcel: &Parcel, heard: &Heard) -> bool
    requires parcel { IsParcel parcel.now }
    requires agrees { Agrees parcel.now }
    ensures { result ≡ list_all (fits_one (named_in parcel.now) heard.now (ledger_in parcel.now)) heard.now.list }
{
    let list = heard.list.as_slice();
    list.iter()
        .all(|transaction| holds_books_of(parcel, heard, transaction))
}

// Whether it holds the books of one of the record's transactions.
fn holds_books_of(parcel: &Parcel, heard: &Heard, transaction: &Transaction) -> bool
    requires parcel { IsParcel parcel.now }
    requires agrees { Agrees parcel.now }
    ensures { result ≡ fits_one (named_in parcel.now) heard.now (ledger_in parcel.now) transaction.now }
{
    match transaction {
        Transaction::Bill(bill) => {
            let parts = bill.parts();
            parcel.has_key(&heard.key(parts.reference)) && parcel.has_family(&parts.family)
        }
        Transaction::Reverse(reversal) => holds_reversed(parcel, &heard.key(reversal.reference)),
        Transaction::Faulty(_) => true,
    }
}

// Whether it holds the book of a reversed key, and the book of the family of the row under it.
fn holds_reversed(parcel: &Parcel, key: &Key) -> bool
    requires parcel { IsParcel parcel.now }
    requires agrees { Agrees parcel.now }
    ensures { result ≡ (names (named_in parcel.now) (OfKey key.now)
        && names_holder (named_in parcel.now) (row_under (ledger_in parcel.now) key.now)) }
{
    parcel.has_key(key) && holds_family_of(parcel, parcel.row(key))
}

// Whether it holds the book of the row's family, if there is a row.
fn holds_family_of(parcel: &Parcel, row: Option<Row>) -> bool
    ensures { result ≡ names_holder (named_in parcel.now) row }
{
    match row {
        Some(row) => parcel.has_family(&row.family),
        None => true,
    }
}
