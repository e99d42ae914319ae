ghost use Rattle.std.specs.Prelude.{◌≡◌, ◌↔◌, IfErr, IfOk, IfSome, IsOk, OnErr, Some, false, slice_get, true};
ghost use Rattle.std.specs.List.{All, list_all};
ghost use Rattle.rx_ledger.specs.Ledger.{IsLedger, is_listed, is_taken};
ghost use Rattle.rx_fields.specs.Order.{key_cmp};
ghost use Rattle.rx_sorted.specs.Ascending.{IsAscending};
ghost use Rattle.rx_ledger.specs.Rows.{member_of_row, row_key};
ghost use Rattle.rx_books_family.specs.Books.{Book, book};
ghost use Rattle.rx_books_store.specs.OpenBooks.{open_with, open_without};
ghost use Rattle.rx_books_family.specs.Shelves.{AreAllAgreed, HoldsOwnRow, IsShelf, are_all_in, row_held, value_of};
ghost use Rattle.rx_books_shelf.specs.Closed.{HasSlot, are_members_kept, does_book_keep, is_member_held, with_places, with_place};

use crate::held::row_held;
use crate::shelf::Shelf;
use rx_books_family::{FamilyPlace, KeyPlace, is_among};
use rx_books_store::{Books, OpenBooks};
use rx_fields::Key;
use rx_ledger::{Member, Row};

impl Shelf {
    /// The books of all values. It takes no memory. While a book is out the shelf comes back.
    pub fn close(self) -> Result<Books, Shelf>
        requires { are_all_in self ≡ true → AreAllAgreed (value_of self) }
        ensures ok { IsOk result ↔ (are_all_in self ≡ true) }
        ensures period { IfOk result (λ books. books.period ≡ self.period) }
        ensures values { IfOk result (λ books. (b : Book) → book b books.ledger ≡ value_of self b) }
        ensures within { IfOk result (λ books. IsLedger books.ledger) }
        ensures back { IfErr result (λ shelf. shelf ≡ self) }
        ensures kept { OnErr result (IsShelf self) }
    {
        if !self.are_all_in() {
            return Err(self);
        }
        if self.are_members_kept() {
            Ok(self.written())
        } else {
            Ok(self.amended())
        }
    }

    // The opened books with each key's row written into its slot.
    fn written(self) -> Books
        requires agreed { AreAllAgreed (value_of self) }
        requires members { are_members_kept self ≡ true }
        ensures period { result.period ≡ self.period }
        ensures values { (b : Book) → book b result.ledger ≡ value_of self b }
        ensures within { IsLedger result.ledger }
    {
        let Shelf { books, keys, .. } = self;
        brought(books, keys.as_slice()).close()
    }

    // The opened books with the places, which stand instead of what the books hold.
    fn amended(self) -> Books
        requires { AreAllAgreed (value_of self) }
        ensures period { result.period ≡ self.period }
        ensures values { (b : Book) → book b result.ledger ≡ value_of self b }
        ensures within { IsLedger result.ledger }
    {
        let Shelf {
            books,
            keys,
            families,
        } = self;
        books.close_with(keys, families)
    }

    // Whether each family's book has the members that the family has in the ledger.
    fn are_members_kept(&self) -> bool
        ensures { result ≡ are_members_kept self.now }
    {
        self.are_members_held() && self.do_books_keep()
    }

    // Whether each member in the ledger is in the book of the family, where that has a place.
    fn are_members_held(&self) -> bool
        ensures { result ≡ list_all (is_member_held self.now) self.now.rest.members }
    {
        self.books
            .members()
            .iter()
            .all(|member| self.is_member_held(member))
    }

    // Whether the member is in the book of the family, where that has a place.
    fn is_member_held(&self, member: &Member) -> bool
        ensures { result ≡ is_member_held self.now member.now }
    {
        match self.families.get(&member.key.family) {
            Some(place) => is_among(place.members(), member),
            None => true,
        }
    }

    // Whether each member of each family's book is one in the ledger.
    fn do_books_keep(&self) -> bool
        ensures { result ≡ list_all (does_book_keep self.now) self.now.families }
    {
        self.family_places()
            .iter()
            .all(|place| self.does_book_keep(place))
    }

    // Whether each member of the family's book is one in the ledger.
    fn does_book_keep(&self, place: &FamilyPlace) -> bool
        ensures { result ≡ does_book_keep self.now place.now }
    {
        place
            .members()
            .iter()
            .all(|member| is_among(self.books.members(), member))
    }
}

// The open books with what these places hold. Each key has a slot, and the member of each row is listed.
fn brought(books: OpenBooks, places: &[KeyPlace]) -> OpenBooks
    requires slots { All (HasSlot books.slots) places.now }
    requires rows { All HoldsOwnRow places.now }
    requires listed { All (λ p. IfSome (row_held p) (λ r. is_listed books.books.ledger (member_of_row r) ≡ true)) places.now }
    requires in_order { IsLedger books.books.ledger }
    ensures value { result ≡ with_places books places.now }
    ensures in_order { IsLedger result.books.ledger }
{
    let mut books = books;
    let mut near = 0;
    for place in places {
        bring(&mut books, &mut near, place);
    }
    books
}

// Brings the slot of a key to what its place holds. The slot is looked for at `near`, and the next one's from then on
// after it.
fn bring(books: &mut OpenBooks, near: &mut usize, place: &KeyPlace)
    requires slot { HasSlot books.old.slots place.now }
    requires row { HoldsOwnRow place.now }
    requires listed { IfSome (row_held place.now) (λ r. is_listed books.old.books.ledger (member_of_row r) ≡ true) }
    requires rise { IsAscending key_cmp row_key books.old.books.ledger.rows }
    ensures { books.new ≡ with_place books.old place.now }
{
    let Some(slot) = books.slot_near(*near, &place.key) else {
        unreachable!()
    };
    *near = slot.saturating_add(1);
    empty_slot(books, slot, &place.key);
    let Some(row) = row_held(*place) else {
        return;
    };
    fill_slot(books, slot, row);
}

// Takes the row out of the slot of a key, if there is one.
fn empty_slot(books: &mut OpenBooks, slot: usize, key: &Key)
    requires { slice_get books.old.slots slot ≡ Some key.now }
    ensures { books.new ≡ open_without books.old key.now }
{
    if books.row_at(slot).is_some() {
        let _before = books.remove(slot);
    }
}

// Puts a row of a listed member into its slot, which is free.
fn fill_slot(books: &mut OpenBooks, slot: usize, row: Row)
    requires slot { slice_get books.old.slots slot ≡ Some row.key }
    requires free { is_taken books.old.books.ledger row.key ≡ false }
    requires listed { is_listed books.old.books.ledger (member_of_row row) ≡ true }
    ensures { books.new ≡ open_with books.old row }
{
    let Some(member) = books.member_of(&row.family, &row.person) else {
        unreachable!()
    };
    let family = books.home_of(member);
    books.add(slot, family, member, row);
}
