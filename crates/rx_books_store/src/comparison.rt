ghost use Rattle.std.specs.Prelude.{◌≡◌, ◌↔◌, IsTrue};
ghost use Rattle.std.specs.List.{list_all};
ghost use Rattle.rx_fields.specs.Order.{id_cmp, key_cmp};
ghost use Rattle.rx_sorted.specs.Ascending.{IsAscending};
ghost use Rattle.rx_ledger.specs.Ledger.{IsLedger};
ghost use Rattle.rx_books_family.specs.Amended.{is_among, members_held};
ghost use Rattle.rx_books_family.specs.Shelves.{place_family, place_key, row_held};
ghost use Rattle.rx_books_store.specs.WholeBooks.{are_members_in, are_one, are_rows_in, has_if_row, has_unkeyed, has_unplaced, is_within};

use crate::open_books::OpenBooks;
use crate::whole::Whole;
use rx_books_family::{FamilyPlace, KeyPlace};
use rx_ledger::{Member, Row};
use rx_sorted::item_of;

impl<'a> Whole<'a> {
    /// Whether these are the same books. It takes no memory.
    pub(crate) fn is_same(&self, other: &Whole<'_>) -> bool
        ensures { IsTrue result ↔ (self.now ≡ other.now) }
    {
        self.are_one(other)
    }

    // Whether each has what the other has.
    fn are_one(&self, other: &Whole<'_>) -> bool
        ensures value { result ≡ are_one self.now other.now }
        ensures ours { IsLedger self.now.ledger }
        ensures theirs { IsLedger other.now.ledger }
    {
        self.is_within(other) && other.is_within(self)
    }

    // Whether the other has the same period, each member and each row.
    fn is_within(&self, other: &Whole<'_>) -> bool
        ensures value { result ≡ is_within self.now other.now }
        ensures ours { IsLedger self.now.ledger }
        ensures theirs { IsLedger other.now.ledger }
    {
        self.period() == other.period() && self.are_members_in(other) && self.are_rows_in(other)
    }

    // Whether the other has each member.
    fn are_members_in(&self, other: &Whole<'_>) -> bool
        ensures { result ≡ are_members_in self.now.ledger other.now.ledger }
    {
        has_unplaced(other, self.families, self.books.members()) && has_held(other, self.families)
    }

    // Whether the other has each row.
    fn are_rows_in(&self, other: &Whole<'_>) -> bool
        ensures { result ≡ are_rows_in self.now.ledger other.now.ledger }
    {
        has_placed_rows(other, self.keys) && has_unkeyed(other, self.keys, self.books)
    }
}

// Whether the books have each of these members whose family has no place.
fn has_unplaced(books: &Whole<'_>, places: &[FamilyPlace], members: &[Member]) -> bool
    requires { IsAscending id_cmp place_family places.now }
    ensures { result ≡ list_all (has_unplaced books.now.ledger places.now) members.now }
{
    members
        .iter()
        .all(|member| has_if_unplaced(books, places, member))
}

// Whether they have the member, where its family has no place.
fn has_if_unplaced(books: &Whole<'_>, places: &[FamilyPlace], member: &Member) -> bool
    requires { IsAscending id_cmp place_family places.now }
    ensures { result ≡ has_unplaced books.now.ledger places.now member.now }
{
    item_of(places, &member.key.family).is_some() || books.has_member(member)
}

// Whether they have each member that the places hold.
fn has_held(books: &Whole<'_>, places: &[FamilyPlace]) -> bool
    ensures { result ≡ list_all (λ p. list_all (is_among books.now.ledger.members) (members_held p)) places.now }
{
    places
        .iter()
        .all(|place| has_members(books, place.members()))
}

// Whether they have each of these members.
fn has_members(books: &Whole<'_>, members: &[Member]) -> bool
    ensures { result ≡ list_all (is_among books.now.ledger.members) members.now }
{
    members.iter().all(|member| books.has_member(member))
}

// Whether they have each row that the places hold.
fn has_placed_rows(books: &Whole<'_>, places: &[KeyPlace]) -> bool
    ensures { result ≡ list_all (λ p. has_if_row books.now.ledger (row_held p)) places.now }
{
    places.iter().all(|place| has_placed_row(books, place))
}

// Whether they have the row that the place holds, if there is one.
fn has_placed_row(books: &Whole<'_>, place: &KeyPlace) -> bool
    ensures { result ≡ has_if_row books.now.ledger (row_held place.now) }
{
    match place.row() {
        Some(row) => books.has_row(row),
        None => true,
    }
}

// Whether they have each row that stands in the opened books, and whose fill key has no place.
fn has_unkeyed(books: &Whole<'_>, places: &[KeyPlace], opened: &OpenBooks) -> bool
    requires { IsAscending key_cmp place_key places.now }
    ensures { result ≡ list_all (has_unkeyed books.now.ledger places.now) opened.now.books.ledger.rows }
{
    let mut standing = opened.standing();
    'rows: while let Some((row, _)) = standing.next_row() {
        if !has_if_unkeyed(books, places, row) {
            return false;
        }
    }
    true
}

// Whether they have the row, where its fill key has no place.
fn has_if_unkeyed(books: &Whole<'_>, places: &[KeyPlace], row: &Row) -> bool
    requires { IsAscending key_cmp place_key places.now }
    ensures { result ≡ has_unkeyed books.now.ledger places.now row.now }
{
    item_of(places, &row.key).is_some() || books.has_row(row)
}
