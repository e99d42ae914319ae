ghost use Rattle.std.specs.Prelude.{◌≡◌, ◌≢◌, ◌≤◌, ◌↔◌, ◌||◌, if◌then◌else◌, Bool, false, true, is_ok, is_some, length, vec_capacity};
ghost use Rattle.std.specs.Prelude.{IfErr, IfOk, IsErrOf, IsOk, OnErr, OnOk, map};
ghost use Rattle.std.specs.List.{All, Contains};
ghost use Rattle.rx_fields.specs.Order.{key_cmp};
ghost use Rattle.rx_sorted.specs.Ascending.{IsAscending, itself};
ghost use Rattle.rx_ledger.specs.Ledger.{IsLedger, empty};
ghost use Rattle.rx_books_family.specs.Books.{Book, book};
ghost use Rattle.rx_books_family.specs.FamilyBook.{IsOwn};
ghost use Rattle.rx_books_parcel.specs.Footprints.{names};
ghost use Rattle.rx_books_parcel.specs.Parcels.{IsParcel, named_in, values_of};
ghost use Rattle.rx_books_family.specs.Shelves.{AreAllAgreed, IsShelf, are_all_in, has_slot, is_out, value_of};
ghost use Rattle.rx_books_shelf.specs.Opened.{all_families, all_keys, filled_place, full_key_place, is_named_by, opened_book, shelf_of};
ghost use Rattle.rx_books_shelf.specs.Taken.{are_out, has_all, put_back, taken_out, taken_parcel};

use crate::fault::{GiveFault, TakeFault};
use crate::gathering::gathered;
use crate::naming::{families_named, keys_named};
use crate::placing::{family_places, key_places};
use rx_books_family::{FamilyPlace, KeyPlace};
use rx_books_parcel::{Footprint, Parcel};
use rx_books_store::{Books, OpenBooks};
use rx_fields::{Key, Memory, Period};
use rx_sorted::Hinted;
use std::alloc::Global;
use std::marker::Model;

/// The books of a batch, with a place for each book that it names: parcels are taken from there, and given back
/// (docs/ARCHITECTURE.md, "Desk and shelf"). Contracts see the period, the ledger that the books were opened on, and
/// each place with what it holds; `value_of` is what a book is worth.
#[derive(Drop)]
pub struct Shelf {
    // The books that the shelf was made of. They stay as they were.
    pub(crate) books: OpenBooks,
    pub(crate) keys: Hinted<KeyPlace>,
    pub(crate) families: Hinted<FamilyPlace>,
}

impl Model for Shelf {
    ghost use Rattle.std.specs.List.{All};
    ghost use Rattle.rx_books_family.specs.Shelves.{IsShelf, ShelfParts};
    ghost use Rattle.rx_books_shelf.specs.Closed.{HasSlot};

    ghost Value = { ShelfParts };

    ghost view = { λ s. record { period = s.books.books.period; rest = s.books.books.ledger; keys = s.keys; families = s.families } };

    ghost invariant = { λ s. IsShelf (record {
      period = s.books.books.period;
      rest = s.books.books.ledger;
      keys = s.keys;
      families = s.families;
    }) × All (HasSlot s.books.slots) s.keys };
}

impl Shelf {
    /// The shelf of the books, with a place for each book that one of the footprints names, and all of them in. On a
    /// refusal the books are dropped.
    pub fn of(alloc: Global, books: Books, footprints: &[Footprint]) -> Result<Shelf, Memory>
        ensures value { IfOk result (λ shelf. shelf ≡ shelf_of books footprints.now) }
        // Each book is worth what it is in the books; those that a footprint names have a place, and none is out.
        ensures values { IfOk result (λ shelf. (b : Book) → value_of shelf b ≡ book b books.ledger) }
        ensures slots { IfOk result (λ shelf. (b : Book) → has_slot shelf b ≡ is_named_by footprints.now b) }
        ensures inside { IfOk result (λ shelf. (b : Book) → is_out shelf b ≡ false) }
    {
        let keys = keys_named(alloc, footprints)?;
        let books = books.open(alloc, &keys)?;
        Shelf::over(alloc, books, &keys, footprints)
    }

    // The shelf over opened books, with a place for each of these keys, which are those that the footprints name, and for
    // each family that they do.
    fn over(
        alloc: Global,
        books: OpenBooks,
        keys: &[Key],
        footprints: &[Footprint],
    ) -> Result<Shelf, Memory>
        requires keys { keys.now ≡ all_keys footprints.now }
        requires rise { IsAscending key_cmp itself keys.now }
        requires slots { All (Contains books.slots) keys.now }
        ensures value { IfOk result (λ shelf. shelf ≡ shelf_of books.books footprints.now) }
        ensures within { IfOk result (λ _. IsLedger books.books.ledger) }
    {
        let keys = placed_keys(alloc, &books, keys)?;
        let families = placed_families(alloc, &books, footprints)?;
        Ok(Shelf {
            books,
            keys,
            families,
        })
    }

    /// The period that all totals are of.
    pub fn period(&self) -> Period
        ensures value { result ≡ self.now.period }
        ensures within { IsShelf self.now }
    {
        self.books.period()
    }

    /// Moves the books that the footprint names out of their places. On a refusal the shelf is unchanged.
    pub fn take(&mut self, alloc: Global, footprint: &Footprint) -> Result<Parcel, TakeFault>
        ensures absent { IsErrOf result TakeFault.Absent ↔ (has_all self.old footprint.now ≡ false) }
        ensures parcel { IfOk result (λ parcel. parcel ≡ taken_parcel self.old footprint.now) }
        ensures ok { OnOk result (self.new ≡ taken_out self.old footprint.now) }
        ensures err { OnErr result (self.new ≡ self.old) }
        // The parcel has the values of the named books, and the shelf no longer has them.
        ensures values { IfOk result (λ parcel. (b : Book) → values_of parcel b
            ≡ (if names footprint.now b then value_of self.old b else empty)) }
        ensures left { OnOk result ((b : Book) → value_of self.new b ≡ (if names footprint.now b then empty else value_of self.old b)) }
        ensures out { OnOk result ((b : Book) → is_out self.new b ≡ (names footprint.now b || is_out self.old b)) }
        ensures slots { OnOk result ((b : Book) → has_slot self.new b ≡ has_slot self.old b) }
        // What the shelf and the parcel keep as values of their types.
        ensures within { OnOk result (IsShelf self.old) }
        ensures own { IfOk result (λ parcel. IsParcel parcel) }
    {
        let Some(near) = self.all_in(footprint) else {
            return Err(TakeFault::Absent);
        };
        let keys = book_room(alloc, footprint.keys().len())?;
        let families = book_room(alloc, footprint.families().len())?;
        let keys = self.keys.take_all(near.key, footprint.keys(), keys);
        let families = self
            .families
            .take_all(near.family, footprint.families(), families);
        Ok(Parcel::new(self.books.period(), keys, families))
    }

    /// Moves the parcel's books back into their places. It takes no memory. A stranger comes back, and the shelf is
    /// unchanged.
    pub fn give(&mut self, parcel: Parcel) -> Result<(), GiveFault>
        ensures accepts { IsOk result ↔ ((parcel.period ≡ self.old.period) × (are_out self.old (named_in parcel) ≡ true)) }
        ensures ok { OnOk result (self.new ≡ put_back self.old parcel) }
        ensures err { OnErr result (self.new ≡ self.old) }
        ensures back { IfErr result (λ fault. fault.parcel ≡ parcel) }
        // The parcel's books are worth what they are in it, and are in; all others are as they were.
        ensures values { OnOk result ((b : Book) → value_of self.new b
            ≡ (if names (named_in parcel) b then values_of parcel b else value_of self.old b)) }
        ensures out { OnOk result ((b : Book) → is_out self.new b ≡ (if names (named_in parcel) b then false else is_out self.old b)) }
        ensures slots { OnOk result ((b : Book) → has_slot self.new b ≡ has_slot self.old b) }
    {
        if parcel.period() != self.books.period() {
            return Err(GiveFault { parcel });
        }
        let Some(near) = self.all_out(&parcel) else {
            return Err(GiveFault { parcel });
        };
        let (keys, families) = parcel.into_books();
        self.keys.put_all(near.key, keys);
        self.families.put_all(near.family, families);
        Ok(())
    }

    // Whether each book that the footprint names is in: then where to look for their places first.
    fn all_in(&self, footprint: &Footprint) -> Option<Near>
        ensures { is_some result ≡ has_all self.now footprint.now }
    {
        let key = self.keys.all_in(footprint.keys())?;
        let family = self.families.all_in(footprint.families())?;
        Some(Near { key, family })
    }

    // Whether each book of the parcel has a place, and is out: then where to look for their places first.
    fn all_out(&self, parcel: &Parcel) -> Option<Near>
        ensures { is_some result ≡ are_out self.now (named_in parcel.now) }
    {
        let key = self.keys.all_out(parcel.keys())?;
        let family = self.families.all_out(parcel.families())?;
        Some(Near { key, family })
    }
}

// The places of these keys, each with what it holds in the books.
fn placed_keys(alloc: Global, books: &OpenBooks, keys: &[Key]) -> Result<Hinted<KeyPlace>, Memory>
    requires { IsAscending key_cmp itself keys.now }
    ensures { IfOk result (λ places. places ≡ map (full_key_place books.now.books) keys.now) }
{
    let places = Hinted::of(alloc, key_places(alloc, books, keys)?)?;
    Ok(places)
}

// The places of the families that footprints name, each with its book.
fn placed_families(
    alloc: Global,
    books: &OpenBooks,
    footprints: &[Footprint],
) -> Result<Hinted<FamilyPlace>, Memory>
    ensures value { IfOk result (λ places.
        places ≡ map filled_place (map (opened_book books.now.books) (all_families footprints.now))) }
    ensures own { IfOk result (λ _. All IsOwn (map (opened_book books.now.books) (all_families footprints.now))) }
    ensures within { IfOk result (λ _. IsLedger books.now.books.ledger) }
{
    let families = families_named(alloc, footprints)?;
    let gathered = gathered(alloc, books, &families)?;
    let places = Hinted::of(alloc, family_places(alloc, books, gathered)?)?;
    Ok(places)
}

// Where a place of a parcel's keys and one of its families is, or may be.
#[derive(Clone, Copy)]
struct Near {
    key: usize,
    family: usize,
}

// Room for this many books; a single one needs none.
fn book_room<T>(alloc: Global, count: usize) -> Result<Vec<T>, Memory>
    ensures none { IfOk result (λ room. length room.items ≡ 0) }
    ensures room { IfOk result (λ room. count ≢ 1 → count ≤ vec_capacity room) }
{
    if count == 1 {
        return Ok(Vec::new(alloc));
    }
    Ok(Vec::with_capacity(alloc, count)?)
}
