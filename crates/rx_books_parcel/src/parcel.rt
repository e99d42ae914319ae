ghost use Rattle.std.specs.Prelude.{◌≡◌, ◌↔◌, IfOk, IfSome, IsSome, IsTrue, None, OnErr, OnOk, true};
ghost use Rattle.std.specs.List.{All};
ghost use Rattle.std.specs.Option.{option_copied};
ghost use Rattle.rx_fields.specs.Order.{id_cmp, key_cmp};
ghost use Rattle.rx_sorted.specs.Ascending.{IsAscending, IsAt, contains_key, item_at, put};
ghost use Rattle.rx_books_family.specs.Books.{OfFamily, OfKey};
ghost use Rattle.rx_books_family.specs.FamilyBook.{IsOwn, family_of};
ghost use Rattle.rx_sorted.specs.Few.{items_of};
ghost use Rattle.rx_books_parcel.specs.Footprints.{names};
ghost use Rattle.rx_books_parcel.specs.Parcels.{Agrees, HasOwnRow, IsParcel, family_at, family_deductible_at, key_of};
ghost use Rattle.rx_books_parcel.specs.Parcels.{member_at, member_deductible, named_in, parcel_with_row, parcel_without_row, pocket_at};
ghost use Rattle.rx_books_parcel.specs.Parcels.{row_at, rows_at};

use rx_books_family::{Family, KeyBook};
use rx_d0_values::copies;
use rx_fields::{Id, Key, Memory, Period, Person};
use rx_ledger::{Member, Row};
use rx_sorted::{Few, Keyed, is_ascending, place_of};
use std::alloc::Global;
use std::marker::Model;

/// The books that a footprint names, moved out of the ledger: of each fill key the row under it or none, of each family
/// its book with the totals of one period (docs/RULES.md, "Words").
#[derive(Drop)]
pub struct Parcel {
    period: Period,
    keys: Few<KeyBook>,
    families: Few<Family>,
}

impl Model for Parcel {
    ghost use Rattle.rx_sorted.specs.Few.{items_of};
    ghost use Rattle.rx_books_parcel.specs.Parcels.{IsParcel, ParcelParts};

    ghost Value = { ParcelParts };

    ghost view = { λ p. record { period = p.period; keys = items_of p.keys; families = items_of p.families } };

    ghost invariant = { λ p. IsParcel (record { period = p.period; keys = items_of p.keys; families = items_of p.families }) };
}

impl Parcel {
    /// Whether these books make a parcel: the keys ascend, each with its own row, and so do the families, each with members
    /// and rows of its own and totals of the period.
    pub fn are_books(period: Period, keys: &[KeyBook], families: &[Family]) -> bool
        ensures { IsTrue result ↔ IsParcel (record { period = period; keys = keys.now; families = families.now }) }
    {
        are_key_books(keys) && are_family_books(families, period)
    }

    /// The parcel of these books, each with rows of its own and totals of the period. It takes no memory.
    #[inline(always)]
    pub fn new(period: Period, keys: Few<KeyBook>, families: Few<Family>) -> Parcel
        requires keys_rise { IsAscending key_cmp key_of (items_of keys) }
        requires rows_own { All HasOwnRow (items_of keys) }
        requires families_rise { IsAscending id_cmp family_of (items_of families) }
        requires families_own { All IsOwn (items_of families) }
        requires one_period { All (λ b. b.period ≡ period) (items_of families) }
        ensures { result ≡ record { period = period; keys = items_of keys; families = items_of families } }
    {
        Parcel {
            period,
            keys,
            families,
        }
    }

    /// Its books: those of fill keys and those of families, each in order. It takes no memory.
    #[inline(always)]
    pub fn into_books(self) -> (Few<KeyBook>, Few<Family>)
        ensures keys { items_of result.0 ≡ self.keys }
        ensures families { items_of result.1 ≡ self.families }
        ensures within { IsParcel self }
    {
        let Parcel { keys, families, .. } = self;
        (keys, families)
    }

    /// The period that its totals are of.
    pub fn period(&self) -> Period
        ensures value { result ≡ self.now.period }
        ensures within { IsParcel self.now }
    {
        self.period
    }

    /// The books of fill keys, in order.
    pub fn keys(&self) -> &[KeyBook]
        ensures value { result.now ≡ self.now.keys }
        ensures within { IsParcel self.now }
    {
        self.keys.as_slice()
    }

    /// The books of families, in order.
    pub fn families(&self) -> &[Family]
        ensures value { result.now ≡ self.now.families }
        ensures within { IsParcel self.now }
    {
        self.families.as_slice()
    }

    /// Whether it holds the book of the fill key.
    pub fn has_key(&self, key: &Key) -> bool
        ensures { result ≡ names (named_in self.now) (OfKey key.now) }
    {
        place_of(self.keys(), key).is_ok()
    }

    /// Whether it holds the book of the family.
    pub fn has_family(&self, family: &Id) -> bool
        ensures { result ≡ names (named_in self.now) (OfFamily family.now) }
    {
        place_of(self.families(), family).is_ok()
    }

    /// The row under a fill key; None where none stands there, and where the key's book isn't held.
    pub fn row(&self, key: &Key) -> Option<Row>
        ensures { result ≡ row_at self.now key.now }
    {
        self.key_book(key)?.row
    }

    // The book of a fill key.
    fn key_book(&self, key: &Key) -> Option<&KeyBook>
        ensures { option_copied result ≡ item_at key_cmp key_of self.now.keys key.now }
    {
        match place_of(self.keys(), key) {
            Ok(at) => Some(&self.keys()[at]),
            Err(_) => None,
        }
    }

    /// The book of a family.
    pub fn family(&self, family: &Id) -> Option<&Family>
        ensures { option_copied result ≡ family_at self.now family.now }
    {
        match place_of(self.families(), family) {
            Ok(at) => Some(&self.families()[at]),
            Err(_) => None,
        }
    }

    /// The member of a family with the person code.
    pub fn member(&self, family: &Id, person: &Person) -> Option<Member>
        ensures { result ≡ member_at self.now family.now person.now }
    {
        self.family(family)?.member(person)
    }

    /// The standing claims of a family, ascending by fill key; none where its book isn't held.
    pub fn rows(&self, family: &Id) -> &[Row]
        ensures { result.now ≡ rows_at self.now family.now }
    {
        match self.family(family) {
            Some(book) => book.rows(),
            None => &[],
        }
    }

    /// The deductible of a person so far, in cents; None where the person isn't a listed member.
    pub fn deductible(&self, family: &Id, person: &Person) -> Option<u128>
        ensures { result ≡ member_deductible self.now family.now person.now }
    {
        self.family(family)?.deductible(person)
    }

    /// The out of pocket of a family so far, in cents; None where its book isn't held.
    pub fn out_of_pocket(&self, family: &Id) -> Option<u128>
        ensures { result ≡ pocket_at self.now family.now }
    {
        Some(self.family(family)?.out_of_pocket())
    }

    /// The deductible of a family so far, in cents; None where its book isn't held.
    pub fn family_deductible(&self, family: &Id) -> Option<u128>
        ensures { result ≡ family_deductible_at self.now family.now }
    {
        Some(self.family(family)?.family_deductible())
    }

    /// Adds a standing claim of a listed member under a free fill key, to the books of its key and its family. On a
    /// refusal the parcel is unchanged.
    pub fn add(&mut self, row: Row) -> Result<(), Memory>
        requires agrees { Agrees self.old }
        requires key { names (named_in self.old) (OfKey row.key) ≡ true }
        requires family { names (named_in self.old) (OfFamily row.family) ≡ true }
        requires free { row_at self.old row.key ≡ None }
        requires listed { IsSome (member_at self.old row.family row.person) }
        ensures ok { OnOk result (self.new ≡ parcel_with_row self.old row) }
        ensures err { OnErr result (self.new ≡ self.old) }
        ensures within { IsParcel self.new }
    {
        let at = held_place(self.families.as_slice(), &row.family);
        let family = self.families.at_mut(at);
        family.add(row)?;
        let book = KeyBook {
            key: row.key,
            row: Some(row),
        };
        write_over(&mut self.keys, book);
        Ok(())
    }

    /// Takes the row under a fill key out of the books of its key and its family. It takes no memory.
    pub fn remove(&mut self, key: &Key)
        requires agrees { Agrees self.old }
        requires key { names (named_in self.old) (OfKey key.now) ≡ true }
        requires there { IsSome (row_at self.old key.now) }
        requires family { IfSome (row_at self.old key.now) (λ r. names (named_in self.old) (OfFamily r.family) ≡ true) }
        ensures books { self.new ≡ parcel_without_row self.old key.now }
        ensures within { IsParcel self.new }
    {
        let Some(row) = self.row(key) else {
            return;
        };
        let at = held_place(self.families.as_slice(), &row.family);
        let family = self.families.at_mut(at);
        let _removed = family.remove(key);
        let book = KeyBook {
            key: *key,
            row: None,
        };
        write_over(&mut self.keys, book);
    }

    /// An equal parcel.
    #[inline(always)]
    pub fn copy(&self, alloc: Global) -> Result<Parcel, Memory>
        ensures value { IfOk result (λ parcel. parcel ≡ self.now) }
        ensures within { IfOk result IsParcel }
    {
        let keys = self.keys.to_copy(alloc)?;
        let families = families_copied(alloc, &self.families)?;
        Ok(Parcel {
            period: self.period,
            keys,
            families,
        })
    }
}

// Whether the keys ascend, and the row in each one's book is its own.
fn are_key_books(keys: &[KeyBook]) -> bool
    ensures { IsTrue result ↔ (IsAscending key_cmp key_of keys.now × All HasOwnRow keys.now) }
{
    are_keys_ascending(keys) && has_own_rows(keys)
}

// Whether each key comes before the next.
fn are_keys_ascending(keys: &[KeyBook]) -> bool
    ensures { IsTrue result ↔ IsAscending key_cmp key_of keys.now }
{
    is_ascending(keys)
}

// Whether the row in each key's book is its own.
fn has_own_rows(keys: &[KeyBook]) -> bool
    ensures { IsTrue result ↔ All HasOwnRow keys.now }
{
    keys.iter().all(|book| is_own_row(book))
}

// Whether the row in a key's book, if there is one, is its own.
fn is_own_row(book: &KeyBook) -> bool
    ensures { IsTrue result ↔ HasOwnRow book.now }
{
    match book.row {
        Some(row) => row.key == book.key,
        None => true,
    }
}

// Whether the families ascend, and the totals of each are of the period; its members and rows are its own.
fn are_family_books(families: &[Family], period: Period) -> bool
    ensures { IsTrue result ↔ (IsAscending id_cmp family_of families.now × All (λ b. IsOwn b × (b.period ≡ period)) families.now) }
{
    are_ascending(families) && are_of_period(families, period)
}

// Whether each family's totals are of the period.
fn are_of_period(families: &[Family], period: Period) -> bool
    ensures { IsTrue result ↔ All (λ b. IsOwn b × (b.period ≡ period)) families.now }
{
    families.iter().all(|family| is_of_period(family, period))
}

// Whether the family's totals are of the period.
fn is_of_period(family: &Family, period: Period) -> bool
    ensures { IsTrue result ↔ (IsOwn family.now × (family.now.period ≡ period)) }
{
    family.period() == period
}

// Whether each family comes before the next.
fn are_ascending(families: &[Family]) -> bool
    ensures { IsTrue result ↔ IsAscending id_cmp family_of families.now }
{
    is_ascending(families)
}

// The place of an item whose key is there.
fn held_place<T: Keyed>(items: &[T], key: &T::Key) -> usize
    requires rise { IsAscending T.Key.cmp T.key_of items.now }
    requires held { contains_key T.Key.cmp T.key_of items.now key.now ≡ true }
    ensures { IsAt T.Key.cmp T.key_of items.now key.now result }
{
    match place_of(items, key) {
        Ok(at) => at,
        Err(_) => unreachable!(),
    }
}

// Writes a book over the one of its key.
fn write_over(keys: &mut Few<KeyBook>, book: KeyBook)
    requires rise { IsAscending key_cmp key_of (items_of keys.old) }
    requires held { contains_key key_cmp key_of (items_of keys.old) book.key ≡ true }
    ensures { items_of keys.new ≡ put key_cmp key_of (items_of keys.old) book }
{
    let at = held_place(keys.as_slice(), &book.key);
    *keys.at_mut(at) = book;
}

// Equal books, in the same order.
#[inline(always)]
fn families_copied(alloc: Global, families: &Few<Family>) -> Result<Few<Family>, Memory>
    ensures { IfOk result (λ copies. items_of copies ≡ items_of families.now) }
{
    match families {
        Few::One(family) => Ok(Few::One(family.copy(alloc)?)),
        Few::Many(families) => Ok(Few::Many(copies(alloc, families)?)),
    }
}

ghost use Rattle.rx_d0_values.specs.Same.{same, same_laws, same_equivalence};
ghost use Rattle.rx_books_parcel.specs.contracts.parcel.Parcel.{the_row as parcel_row};

impl PartialEq for Parcel {
    ghost eq = { same parcel_row.coded };

    ghost laws = { same_laws parcel_row.coded };

    fn eq(&self, other: &Parcel) -> bool
        ensures { IsTrue result ↔ (self.now ≡ other.now) }
    {
        self.period == other.period
            && self.keys() == other.keys()
            && self.families() == other.families()
    }
}

impl Eq for Parcel {
    ghost laws = { same_equivalence parcel_row.coded };
}
