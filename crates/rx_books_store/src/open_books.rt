ghost use Rattle.std.specs.Prelude.{◌≡◌, ◌<◌, ◌≤◌, ◌^◌, ◌↔◌, IfOk, IfSome, IfNone, IsTrue, Some, true, false, is_some, length, slice_get};
ghost use Rattle.std.specs.List.{All, Contains};
ghost use Rattle.std.specs.Option.{option_copied};
ghost use Rattle.rx_fields.specs.declared.limits.TheConstants.{MOST_CENTS};
ghost use Rattle.rx_fields.specs.Order.{key_cmp};
ghost use Rattle.rx_sorted.specs.Ascending.{IsAscending, IsAt};
ghost use Rattle.rx_ledger.specs.Ledger.{IsLedger, is_listed, is_taken, row_under};
ghost use Rattle.rx_ledger.specs.Members.{member_cmp, member_key};
ghost use Rattle.rx_ledger.specs.Rows.{member_of_row};
ghost use Rattle.rx_ledger.specs.Sums.{deductible, family_deductible, out_of_pocket, paid_by_patient};
ghost use Rattle.rx_books_store.specs.BooksText.{families_of};
ghost use Rattle.rx_books_store.specs.LedgerBooks.{has_members};
ghost use Rattle.rx_books_store.specs.OpenBooks.{open_with, open_without};

use crate::amended::AmendedBooks;
use crate::amounts::{add_at, take_at};
use crate::books::{Books, Form};
use crate::opening::Opening;
use crate::slot::{KeySlot, held_at, is_slot_at, slot_at};
use crate::slots::{fresh_slots, merged};
use crate::standing::Standing;
use rx_fields::{Id, Key, Memory, Period, Person};
use rx_ledger::{Member, MemberKey, Row, counted_in};
use rx_sorted::Ascending;
use std::alloc::Global;
use std::marker::Model;

/// Books that are open for a batch: a slot is kept for each fill key that it can touch, and a row is written into its
/// slot, or taken out of it, without memory. Contracts see the books, and the fill keys that have a slot. Members,
/// families and slots are known by their places, which stay while the books are open.
pub struct OpenBooks {
    pub(crate) period: Period,
    pub(crate) opening: Opening,
    // What stands now under the fill keys that have a slot.
    pub(crate) changed: Ascending<KeySlot>,
    // The members' deductibles, in their order; the families' out of pockets and deductibles, in theirs.
    pub(crate) deductibles: Vec<u128>,
    pub(crate) out_of_pockets: Vec<u128>,
    pub(crate) family_deductibles: Vec<u128>,
}

// Written out, so that freeing one is one call wherever a function ends early, not one for each of its fields.
impl Drop for OpenBooks {
    fn drop(self) {
        let OpenBooks {
            period: _,
            opening: _,
            changed: _,
            deductibles: _,
            out_of_pockets: _,
            family_deductibles: _,
        } = self;
    }
}

impl Model for OpenBooks {
    ghost use Rattle.rx_books_store.specs.OpenBooks.{OpenParts};

    ghost Value = { OpenParts };

    ghost use Rattle.rx_books_store.specs.Store.{IsStore, slot_keys, standing};

    ghost view = { λ b. record {
      books = record { period = b.period; ledger = standing b.opening b.changed };
      slots = slot_keys b.changed;
    } };

    ghost invariant = { λ b. IsStore b.period b.opening b.changed b.deductibles.items b.out_of_pockets.items b.family_deductibles.items };
}

impl Books {
    /// The books, with a slot for each of these fill keys, which ascend. No value changes.
    pub fn open(self, alloc: Global, keys: &[Key]) -> Result<OpenBooks, Memory>
        requires { IsAscending key_cmp (λ key. key) keys.now }
        ensures same { IfOk result (λ opened. opened.books ≡ self) }
        ensures slots { IfOk result (λ opened. All (Contains opened.slots) keys.now) }
    {
        let Books { form } = self;
        match form {
            Form::Plain(books) => books.opened(alloc, keys),
            Form::Amended(books) => books.opened(alloc, keys),
        }
    }
}

impl AmendedBooks {
    // The same members and rows, with a slot for each of these fill keys.
    fn opened(&self, alloc: Global, keys: &[Key]) -> Result<OpenBooks, Memory>
        requires { IsAscending key_cmp (λ key. key) keys.now }
        ensures same { IfOk result (λ opened. opened.books ≡ self.now) }
        ensures slots { IfOk result (λ opened. All (Contains opened.slots) keys.now) }
    {
        let books = self.whole();
        let books = books.made_plain(alloc, books.period())?;
        books.opened(alloc, keys)
    }
}

impl OpenBooks {
    /// The period that the totals are of.
    pub fn period(&self) -> Period
        ensures value { result ≡ self.now.books.period }
        ensures within { IsLedger self.now.books.ledger }
    {
        self.period
    }

    /// The books, closed. It takes no memory.
    pub fn close(self) -> Books
        ensures { result ≡ self.books }
    {
        Books {
            form: Form::Plain(self),
        }
    }

    /// The place of a fill key's slot; None where the key has none.
    pub fn slot_of(&self, key: &Key) -> Option<usize>
        ensures found { IfSome result (λ at. slice_get self.now.slots at ≡ Some key.now) }
        ensures absent { IfNone result (¬ Contains self.now.slots key.now) }
    {
        match self.changed.place(key) {
            Ok(at) => Some(at),
            Err(_) => None,
        }
    }

    /// The same, where the slot is looked for at the place `near` before the others are searched.
    pub fn slot_near(&self, near: usize, key: &Key) -> Option<usize>
        ensures found { IfSome result (λ at. slice_get self.now.slots at ≡ Some key.now) }
        ensures absent { IfNone result (¬ Contains self.now.slots key.now) }
    {
        if is_slot_at(self.changed.as_slice(), near, key) {
            return Some(near);
        }
        self.slot_of(key)
    }

    /// Whether the fill key has its slot at this place.
    pub fn is_slot(&self, slot: usize, key: &Key) -> bool
        ensures { IsTrue result ↔ (slice_get self.now.slots slot ≡ Some key.now) }
    {
        match self.changed.as_slice().get(slot) {
            Some(found) => found.key == *key,
            None => false,
        }
    }

    /// The fill key of a slot.
    pub fn key_at(&self, slot: usize) -> Key
        requires { slot < length self.now.slots }
        ensures { slice_get self.now.slots slot ≡ Some result }
    {
        self.changed.as_slice()[slot].key
    }

    /// The row that stands under a slot's fill key.
    pub fn row_at(&self, slot: usize) -> Option<&Row>
        requires { slot < length self.now.slots }
        ensures { IfSome (slice_get self.now.slots slot) (λ key. option_copied result ≡ row_under self.now.books.ledger key) }
    {
        held_at(&self.changed, slot)
    }

    /// The place of a listed member.
    pub fn member_of(&self, family: &Id, person: &Person) -> Option<usize>
        ensures found { IfSome result (IsAt member_cmp member_key self.now.books.ledger.members
            (record { family = family.now; person = person.now })) }
        ensures listed { is_some result ≡ is_listed self.now.books.ledger (record { family = family.now; person = person.now }) }
    {
        self.opening.member_of(&MemberKey {
            family: *family,
            person: *person,
        })
    }

    /// The members, ascending by family and person.
    pub fn members(&self) -> &[Member]
        ensures value { result.now ≡ self.now.books.ledger.members }
        ensures rise { IsAscending member_cmp member_key self.now.books.ledger.members }
        ensures within { IsLedger self.now.books.ledger }
    {
        self.opening.members().as_slice()
    }

    /// The member at a place.
    pub fn member_at(&self, place: usize) -> &Member
        requires { place < length self.now.books.ledger.members }
        ensures { slice_get self.now.books.ledger.members place ≡ Some result.now }
    {
        &self.opening.members().as_slice()[place]
    }

    /// The place of a family that has a member, among the families in order.
    pub fn family_of(&self, family: &Id) -> Option<usize>
        ensures found { IfSome result (λ at. slice_get (families_of self.now.books.ledger.members) at ≡ Some family.now) }
        ensures listed { is_some result ≡ has_members self.now.books.ledger family.now }
    {
        self.opening.family_of(family)
    }

    /// The place of the family of the member at a place.
    pub fn home_of(&self, place: usize) -> usize
        requires { place < length self.now.books.ledger.members }
        ensures { IfSome (slice_get self.now.books.ledger.members place)
            (λ m. slice_get (families_of self.now.books.ledger.members) result ≡ Some m.key.family) }
    {
        self.opening.home(place)
    }

    /// The deductible so far of the member at a place, in cents.
    pub fn deductible_at(&self, member: usize) -> u128
        requires { member < length self.now.books.ledger.members }
        ensures { IfSome (slice_get self.now.books.ledger.members member)
            (λ m. result ≡ deductible self.now.books.period self.now.books.ledger m.key.family m.key.person) }
    {
        self.deductibles[member]
    }

    /// The out of pocket so far of the family at a place, in cents.
    pub fn out_of_pocket_at(&self, family: usize) -> u128
        requires { family < length (families_of self.now.books.ledger.members) }
        ensures { IfSome (slice_get (families_of self.now.books.ledger.members) family)
            (λ f. result ≡ out_of_pocket self.now.books.period self.now.books.ledger f) }
    {
        self.out_of_pockets[family]
    }

    /// The deductible so far of the family at a place, in cents.
    pub fn family_deductible_at(&self, family: usize) -> u128
        requires { family < length (families_of self.now.books.ledger.members) }
        ensures { IfSome (slice_get (families_of self.now.books.ledger.members) family)
            (λ f. result ≡ family_deductible self.now.books.period self.now.books.ledger f) }
    {
        self.family_deductibles[family]
    }

    /// Goes over the rows that stand, in order, each with the place of its member.
    pub fn standing(&self) -> Standing<'_>
        ensures value { result ≡ self.now.books.ledger }
        ensures within { IsLedger self.now.books.ledger }
        ensures small { All (λ r. paid_by_patient r ≤ MOST_CENTS) self.now.books.ledger.rows }
        ensures few { length self.now.books.ledger.rows < 2 ^ 64 }
    {
        Standing::of(&self.opening, self.changed.as_slice())
    }

    /// Adds a standing claim under its fill key, which is free and has a slot: it counts from now on. `slot` is the place
    /// of that slot, `family` and `member` those of the claim's. It takes no memory.
    pub fn add(&mut self, slot: usize, family: usize, member: usize, row: Row)
        requires slot { slice_get self.old.slots slot ≡ Some row.key }
        requires free { is_taken self.old.books.ledger row.key ≡ false }
        requires member { IsAt member_cmp member_key self.old.books.ledger.members (member_of_row row) member }
        requires family { slice_get (families_of self.old.books.ledger.members) family ≡ Some row.family }
        ensures { self.new ≡ open_with self.old row }
    {
        let counted = counted_in(self.period, &row);
        let filled = KeySlot {
            key: row.key,
            held: Some(row),
            holder: self.opening.kept_place(member),
        };
        self.changed.replace_at(slot, filled);
        add_at(&mut self.deductibles, member, counted.deductible);
        add_at(&mut self.out_of_pockets, family, counted.out_of_pocket);
        add_at(&mut self.family_deductibles, family, counted.deductible);
    }

    /// Takes out the row under a slot's fill key: it counts no more. It takes no memory.
    pub fn remove(&mut self, slot: usize) -> Row
        requires slot { slot < length self.old.slots }
        requires taken { IfSome (slice_get self.old.slots slot) (λ key. is_taken self.old.books.ledger key ≡ true) }
        ensures slot { slice_get self.old.slots slot ≡ Some result.key }
        ensures row { row_under self.old.books.ledger result.key ≡ Some result }
        ensures books { self.new ≡ open_without self.old result.key }
    {
        let found = slot_at(&self.changed, slot);
        let held = found.held;
        let row = match held {
            Some(row) => row,
            None => unreachable!(),
        };
        let member = found.holder as usize;
        let family = self.opening.home(member);
        let counted = counted_in(self.period, &row);
        let emptied = KeySlot {
            key: found.key,
            held: None,
            holder: found.holder,
        };
        self.changed.replace_at(slot, emptied);
        take_at(&mut self.deductibles, member, counted.deductible);
        take_at(&mut self.out_of_pockets, family, counted.out_of_pocket);
        take_at(&mut self.family_deductibles, family, counted.deductible);
        row
    }

    /// The same books, with a slot for each of these fill keys too.
    pub(crate) fn opened(mut self, alloc: Global, keys: &[Key]) -> Result<OpenBooks, Memory>
        requires { IsAscending key_cmp (λ key. key) keys.now }
        ensures same { IfOk result (λ opened. opened.books ≡ self.books) }
        ensures slots { IfOk result (λ opened. All (Contains opened.slots) keys.now) }
    {
        let fresh = fresh_slots(alloc, &self.opening, keys)?;
        let changed = merged(alloc, fresh, self.changed.as_slice())?;
        self.changed = changed;
        Ok(self)
    }
}
