ghost use Rattle.std.specs.Prelude.{◌≡◌, ◌↔◌, IsTrue, true};
ghost use Rattle.std.specs.Bool.{then_some};
ghost use Rattle.std.specs.List.{list_all};
ghost use Rattle.std.specs.Option.{option_and_then};
ghost use Rattle.rx_ledger.specs.Ledger.{row_under};
ghost use Rattle.rx_ledger.specs.Rows.{claimed_by};
ghost use Rattle.rx_books_family.specs.Books.{OfFamily, OfKey, is_found};
ghost use Rattle.rx_books_family.specs.Shelves.{AreAllAgreed, IsShelf, are_all_in, family_value, has_slot, is_family_held, is_key_held};
ghost use Rattle.rx_books_family.specs.Shelves.{row_held, value_of};
ghost use Rattle.rx_books_shelf.specs.Agreement.{agree, book_stands, rest_stands, row_stands, stands};

use crate::held::row_held;
use crate::shelf::Shelf;
use rx_books_family::{Family, FamilyPlace, KeyPlace};
use rx_fields::{Id, Key};
use rx_ledger::Row;

impl Shelf {
    /// Whether no book is out, and the values of all books agree (docs/GUARANTEES.md, "Book values").
    pub fn agrees(&self) -> bool
        ensures { IsTrue result ↔ ((are_all_in self.now ≡ true) × AreAllAgreed (value_of self.now)) }
    {
        self.passes()
    }

    // Whether its books pass all tests.
    fn passes(&self) -> bool
        ensures value { result ≡ agree self.now }
        ensures within { IsShelf self.now }
    {
        self.are_all_in()
            && self.do_key_rows_stand()
            && self.do_family_rows_stand()
            && self.do_other_rows_stand()
    }

    /// Whether no book is out.
    pub(crate) fn are_all_in(&self) -> bool
        ensures value { result ≡ are_all_in self.now }
        ensures within { IsShelf self.now }
    {
        are_all_keys_held(self.key_places()) && are_all_families_held(self.family_places())
    }

    // Whether the row of each key's place stands under its key and in its family's book.
    fn do_key_rows_stand(&self) -> bool
        ensures { result ≡ list_all (λ p. row_stands self.now (row_held p)) self.now.keys }
    {
        self.key_places()
            .iter()
            .all(|place| self.does_row_stand(row_held(*place)))
    }

    // Whether the row does, if there is one.
    fn does_row_stand(&self, row: Option<Row>) -> bool
        ensures { result ≡ row_stands self.now row }
    {
        match row {
            Some(row) => self.stands(&row),
            None => true,
        }
    }

    // Whether each row of each family's place stands so.
    fn do_family_rows_stand(&self) -> bool
        ensures { result ≡ list_all (λ p. book_stands self.now p.held) self.now.families }
    {
        self.family_places()
            .iter()
            .all(|place| self.does_book_stand(place))
    }

    // Whether each row of the family's book does, if it is in its place.
    fn does_book_stand(&self, place: &FamilyPlace) -> bool
        ensures { result ≡ book_stands self.now place.now.held }
    {
        match &place.held {
            Some(book) => self.do_rows_stand(book),
            None => true,
        }
    }

    // Whether each row of the book does.
    fn do_rows_stand(&self, book: &Family) -> bool
        ensures { result ≡ list_all (stands self.now) book.now.rows }
    {
        book.rows().iter().all(|row| self.stands(row))
    }

    // Whether each row in the ledger does that is in some value.
    fn do_other_rows_stand(&self) -> bool
        ensures { result ≡ list_all (rest_stands self.now) self.now.rest.rows }
    {
        let mut standing = self.books.standing();
        'rows: while let Some((row, _)) = standing.next_row() {
            if !self.does_other_row_stand(row) {
                return false;
            }
        }
        true
    }

    // Whether the row does, where its key or its family has no place.
    fn does_other_row_stand(&self, row: &Row) -> bool
        ensures { result ≡ rest_stands self.now row.now }
    {
        (self.has_key(&row.key) && self.has_family(&row.family)) || self.stands(row)
    }

    // Whether the row stands under its key and in its family's book.
    fn stands(&self, row: &Row) -> bool
        ensures { result ≡ stands self.now row.now }
    {
        is_found(self.key_row(&row.key), row)
            && is_found(self.family_row(&row.family, &row.key), row)
    }

    // Whether the key has a place.
    fn has_key(&self, key: &Key) -> bool
        ensures { result ≡ has_slot self.now (OfKey key.now) }
    {
        self.keys.contains_key(key)
    }

    // Whether the family has a place.
    fn has_family(&self, family: &Id) -> bool
        ensures { result ≡ has_slot self.now (OfFamily family.now) }
    {
        self.families.contains_key(family)
    }

    // The places of keys.
    fn key_places(&self) -> &[KeyPlace]
        ensures value { result.now ≡ self.now.keys }
        ensures within { IsShelf self.now }
    {
        self.keys.as_slice()
    }

    /// The places of families.
    pub(crate) fn family_places(&self) -> &[FamilyPlace]
        ensures { result.now ≡ self.now.families }
    {
        self.families.as_slice()
    }

    // The row that the key's book has.
    fn key_row(&self, key: &Key) -> Option<Row>
        ensures { result ≡ row_under (value_of self.now (OfKey key.now)) key.now }
    {
        match self.keys.get(key) {
            Some(place) => row_held(*place),
            None => self.books.row(key).copied(),
        }
    }

    // The row under a key that the family's book has.
    fn family_row(&self, family: &Id, key: &Key) -> Option<Row>
        ensures { result ≡ row_under (value_of self.now (OfFamily family.now)) key.now }
    {
        match self.families.get(family) {
            Some(place) => held_row(place, key),
            None => claimed_row(self.books.row(key).copied(), family),
        }
    }
}

// Whether each of these keys' books is in its place.
fn are_all_keys_held(places: &[KeyPlace]) -> bool
    ensures { result ≡ list_all is_key_held places.now }
{
    places.iter().all(|place| place.held.is_some())
}

// Whether each of these families' books is in its place.
fn are_all_families_held(places: &[FamilyPlace]) -> bool
    ensures { result ≡ list_all is_family_held places.now }
{
    places.iter().all(|place| place.held.is_some())
}

// The row under a key that a family's book has, if it is in its place.
fn held_row(place: &FamilyPlace, key: &Key) -> Option<Row>
    ensures { result ≡ row_under (family_value place.now) key.now }
{
    match &place.held {
        Some(book) => book.row(key),
        None => None,
    }
}

// The row, where it is a claim of the family.
#[tactic(auto, using(rx_ledger::proofs::SameText::same_text))]
fn claimed_row(row: Option<Row>, family: &Id) -> Option<Row>
    ensures { result ≡ option_and_then (λ r. then_some (claimed_by family.now r) r) row }
{
    let row = row?;
    if row.family == *family {
        Some(row)
    } else {
        None
    }
}

// Whether what was found is the row.
fn is_found(found: Option<Row>, row: &Row) -> bool
    ensures { result ≡ is_found row.now found }
{
    found == Some(*row)
}
