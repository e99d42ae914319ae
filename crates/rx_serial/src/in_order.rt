ghost use Rattle.std.specs.Prelude.{◌≡◌, ◌≤◌, ◌↔◌, IfOk, OnOk, map};
ghost use Rattle.std.specs.List.{All, Contains, list_any};
ghost use Rattle.rx_fields.specs.declared.limits.TheConstants.{MOST_DETAILS};
ghost use Rattle.rx_fields.specs.Order.{key_cmp};
ghost use Rattle.rx_fields.specs.declared.key.Key.{Key};
ghost use Rattle.rx_ledger.specs.Answers.{is_too_soon};
ghost use Rattle.rx_ledger.specs.Fold.{ledger_after, reply_to};
ghost use Rattle.rx_ledger.specs.Ledger.{IsLedger, rows_of};
ghost use Rattle.rx_ledger.specs.Members.{is_same};
ghost use Rattle.rx_ledger.specs.TermList.{plan_of};
ghost use Rattle.rx_serial.specs.Underway.{IsAwaited, IsHolder, scope_of};
ghost use Rattle.rx_serial.specs.Fills.{AreCounted, is_counted};
ghost use Rattle.rx_serial.specs.Named.{keys_named};
ghost use Rattle.rx_sorted.specs.Ascending.{IsAscending};

use crate::billed::{Billed, billed_by, longer};
use crate::counted::{Tally, are_counted_for, tally_of};
use crate::ended::Ended;
use crate::fill::{Fill, FirstDay, fill_at, lower, tally_near};
use crate::marks::Marks;
use crate::names::{Names, names_of, slots_of};
use crate::near::near_of;
use crate::refill::Refill;
use crate::used::used_at;
use rx_books_store::{Books, OpenBooks};
use rx_d0_values::{Bill, Reply, Transmission};
use rx_fields::{Day, Days, Id, Key, Memory};
use rx_ledger::{Basis, Figures, Member, MemberKey, Row, Terms, Used, answer_record, is_too_soon};
use rx_sorted::Ascending;
use std::alloc::Global;
use std::marker::Model;

/// Books on which records of a batch are adjudicated one after another: all of them, or some in file order. Contracts see
/// the books so far, the fill keys that have a slot, and those that the records name.
#[derive(Drop)]
pub struct InOrder {
    pub(crate) books: OpenBooks,
    // The fill keys that the records name, each once, in order. All of them have a slot.
    pub(crate) keys: Vec<Key>,
    // Where the members of the records' transactions are listed, in order; where those of each record begin; which record
    // is the next; and where those of the record begin that is adjudicated. Who is found there is compared with who is
    // looked for.
    pub(crate) holders: Vec<Option<usize>>,
    pub(crate) firsts: Vec<usize>,
    pub(crate) next: usize,
    pub(crate) at: usize,
    // Up to which transaction what is asked for was looked at.
    pub(crate) looked: usize,
    // Where the slots of the transactions' fill keys probably are, and the entries of their own fills, in the same order.
    // They are compared too.
    pub(crate) slots: Vec<usize>,
    pub(crate) own: Vec<usize>,
    // The fills of the courses that have a mark, as far as days of them are left on the first day, each with how many
    // standing claims are such fills, and the longest days supply of all.
    pub(crate) marks: Marks,
    pub(crate) first_day: FirstDay,
    pub(crate) fills: Ascending<Fill>,
    pub(crate) longest: Days,
}

impl Model for InOrder {
    ghost use Rattle.rx_serial.specs.Underway.{IsUnderway, Underway};

    ghost Value = { Underway };

    ghost view = { λ o. record { books = o.books.books; slots = o.books.slots; keys = o.keys.items } };

    ghost invariant = { λ o. IsUnderway o.books o.keys.items o.marks o.first_day o.fills o.longest o.holders.items };
}

impl InOrder {
    /// The books for a whole batch, whose records are adjudicated in file order. Without memory the books are dropped.
    pub fn new(
        alloc: Global,
        books: Books,
        transmissions: &[Transmission],
    ) -> Result<InOrder, Memory>
        ensures same { IfOk result (λ order. order.books ≡ books) }
        ensures awaited { IfOk result (λ order. All (IsAwaited order) transmissions.now) }
    {
        let records = borrowed(alloc, transmissions)?;
        InOrder::of_records(alloc, books, &records)
    }

    /// The books for some records of a batch, which are adjudicated in this order: a slot for each fill key that they name,
    /// and the fills of what they bill, counted. Without memory the books are dropped.
    pub fn of_records(
        alloc: Global,
        books: Books,
        records: &[&Transmission],
    ) -> Result<InOrder, Memory>
        ensures same { IfOk result (λ order. order.books ≡ books) }
        ensures awaited { IfOk result (λ order. All (λ t. IsAwaited order t.now) records.now) }
        ensures keys { IfOk result (λ order. (key : Key)
            → Contains order.keys key ↔ Contains (keys_named (map (λ t. t.now) records.now)) key) }
    {
        let names = names_of(alloc, records)?;
        let books = books.open(alloc, &names.keys)?;
        InOrder::over(alloc, books, names, records)
    }

    // The same over opened books, which have a slot for each of the records' fill keys.
    fn over(
        alloc: Global,
        books: OpenBooks,
        names: Names,
        records: &[&Transmission],
    ) -> Result<InOrder, Memory>
        requires rise { IsAscending key_cmp (λ key. key) names.keys.items }
        requires slots { All (Contains books.slots) names.keys.items }
        ensures same { IfOk result (λ order. order.books ≡ books.books) }
        ensures keys { IfOk result (λ order. order.keys ≡ names.keys.items) }
    {
        let found = found_in(alloc, &books, &names, records)?;
        let Names { keys, .. } = names;
        let Found {
            holders,
            firsts,
            slots,
            tally,
        } = found;
        let Tally {
            marks,
            first_day,
            fills,
            places,
            longest,
        } = tally;
        Ok(InOrder {
            books,
            keys,
            holders,
            firsts,
            next: 0,
            at: 0,
            looked: 0,
            slots,
            own: places,
            marks,
            first_day,
            fills,
            longest,
        })
    }

    /// The reply to the next record, which has this place in the batch; the books are then those after it
    /// (docs/GUARANTEES.md, "Record and fold"). Without memory, nothing is promised of the books.
    pub fn record(
        &mut self,
        alloc: Global,
        terms: &Terms,
        place: u64,
        transmission: &Transmission,
    ) -> Result<Reply, Memory>
        requires place { place ≤ MOST_DETAILS }
        requires period { self.old.books.period ≡ terms.now.figures.period }
        requires awaited { IsAwaited self.old transmission.now }
        ensures value { IfOk result (λ reply.
            reply ≡ reply_to terms.now.lot (plan_of terms.now) place transmission.now self.old.books.ledger) }
        ensures after { OnOk result (self.new.books.ledger
            ≡ ledger_after terms.now.lot (plan_of terms.now) place transmission.now self.old.books.ledger) }
        ensures scope { OnOk result (scope_of self.new ≡ scope_of self.old) }
        ensures keys { OnOk result (self.new.keys ≡ self.old.keys) }
    {
        self.begin();
        let reply = answer_record(alloc, self, terms, place, transmission)?;
        self.pass();
        Ok(reply)
    }

    // Turns to the members of the next record.
    fn begin(&mut self)
        ensures same { self.new ≡ self.old }
        ensures rise { IsAscending key_cmp (λ key. key) self.new.keys }
    {
        if let Some(first) = self.firsts.get(self.next) {
            self.at = *first;
        }
        self.looked = self.looked_after(self.looked, self.at);
    }

    // Passes the record that was the next.
    fn pass(&mut self)
        ensures same { self.new ≡ self.old }
        ensures rise { IsAscending key_cmp (λ key. key) self.new.keys }
    {
        self.next = self.next.saturating_add(1);
    }

    /// The standing claims of a family so far, ascending by fill key. All rows are visited.
    pub fn rows_of(&self, alloc: Global, family: &Id) -> Result<Vec<Row>, Memory>
        ensures { IfOk result (λ rows. rows.items ≡ rows_of self.now.books.ledger family.now) }
    {
        rows_of(alloc, &self.books, family)
    }

    /// The books so far. It takes no memory.
    pub fn close(self) -> Books
        ensures { result ≡ self.books }
    {
        let InOrder { books, .. } = self;
        books.close()
    }

    /// The books so far, still open, with the fill keys that the records name. It takes no memory.
    pub fn into_parts(self) -> Ended
        ensures books { result.books.books ≡ self.books }
        ensures keys { result.keys.items ≡ self.keys }
        ensures rise { IsAscending key_cmp (λ key. key) result.keys.items }
        ensures slots { All (Contains result.books.slots) result.keys.items }
    {
        let InOrder { books, keys, .. } = self;
        Ended { books, keys }
    }
}

impl Basis for InOrder {
    ghost use Rattle.rx_serial.specs.Underway.{scope_of};

    ghost ledger = { λ o. o.books.ledger };

    ghost scope = { λ o. scope_of o };

    fn row_under(&self, key: &Key) -> Option<Row> {
        match self.slot_of(key) {
            Some(slot) => self.books.row_at(slot).copied(),
            None => unreachable!(),
        }
    }

    fn has_members(&self, family: &Id) -> bool {
        self.is_near(family) || self.books.family_of(family).is_some()
    }

    fn member(&self, key: &MemberKey) -> Option<Member> {
        match self.holder_of(key) {
            Some(holder) => Some(*self.books.member_at(holder)),
            None => None,
        }
    }

    fn used(&self, _figures: &Figures, key: &MemberKey) -> Used {
        match self.holder_of(key) {
            Some(holder) => used_at(&self.books, holder),
            None => unreachable!(),
        }
    }

    fn is_too_soon(&self, figures: &Figures, date: Day, bill: &Bill) -> bool {
        let Some(holder) = self.holder_of(&MemberKey::of(bill)) else {
            unreachable!()
        };
        let refill = Refill::of(figures, date, bill, holder);
        if are_counted_for(&self.marks, self.first_day, &refill) {
            return refill.is_too_soon(&self.fills, near_of(&self.own, self.at), self.longest);
        }
        is_any_row_too_soon(&self.books, figures, date, bill)
    }

    fn add(&mut self, row: Row) -> Result<(), Memory> {
        let Some(slot) = self.slot_of(&row.key) else {
            unreachable!()
        };
        let Some(holder) = self.holder_of(&row.member()) else {
            unreachable!()
        };
        self.longest = longer(self.longest, row.days);
        let key = fill_at(holder, &row);
        let near = near_of(&self.own, self.at);
        tally_near(&mut self.fills, near, Fill { key, count: 1 })?;
        let home = self.books.home_of(holder);
        self.books.add(slot, home, holder, row);
        Ok(())
    }

    fn remove(&mut self, key: &Key) -> Result<(), Memory> {
        let Some(slot) = self.slot_of(key) else {
            unreachable!()
        };
        let row = self.books.remove(slot);
        let Some(holder) = self.books.member_of(&row.family, &row.person) else {
            unreachable!()
        };
        lower(&mut self.fills, fill_at(holder, &row));
        Ok(())
    }
}

// The records of a whole batch.
fn borrowed(alloc: Global, transmissions: &[Transmission]) -> Result<Vec<&Transmission>, Memory>
    ensures { IfOk result (λ records. map (λ t. t.now) records.items ≡ transmissions.now) }
{
    Ok(transmissions.iter().collect(alloc)?)
}

// What is looked up of some records in their books.
#[derive(Drop)]
struct Found {
    holders: Vec<Option<usize>>,
    firsts: Vec<usize>,
    slots: Vec<usize>,
    tally: Tally,
}

// Looks up what some records name and bill.
fn found_in(
    alloc: Global,
    books: &OpenBooks,
    names: &Names,
    records: &[&Transmission],
) -> Result<Found, Memory>
    ensures holders { IfOk result (λ found. All (IsHolder books.now.books.ledger.members) found.holders.items) }
    ensures counted { let L = books.now.books.ledger in
        IfOk result (λ found. let t = found.tally in AreCounted (is_counted t.marks t.first_day) L.members L.rows t.fills) }
    ensures longest { IfOk result (λ found. All (λ f. f.key.when.days ≤ found.tally.longest) found.tally.fills) }
    ensures within { IfOk result (λ _. IsLedger books.now.books.ledger) }
{
    let Billed {
        holders,
        firsts,
        own,
    } = billed_by(alloc, books, records)?;
    let tally = tally_of(alloc, books, own, holders.len())?;
    let slots = slots_of(alloc, &names.named, &names.keys, holders.len())?;
    Ok(Found {
        holders,
        firsts,
        slots,
        tally,
    })
}

// Whether some row that stands makes a billing too soon. All rows are visited: none of the records asks for it.
fn is_any_row_too_soon(books: &OpenBooks, figures: &Figures, date: Day, bill: &Bill) -> bool
    requires { figures.now.refill_percent ≤ 100 }
    ensures { result ≡ list_any (is_too_soon figures.now date bill.now) (rows_of books.now.books.ledger bill.now.family) }
{
    let mut standing = books.standing();
    while let Some((row, _)) = standing.next_row() {
        if is_same(&row.family, &bill.parts().family) && is_too_soon(figures, date, bill, row) {
            return true;
        }
    }
    false
}

// The rows of a family that stand, in order.
fn rows_of(alloc: Global, books: &OpenBooks, family: &Id) -> Result<Vec<Row>, Memory>
    ensures { IfOk result (λ rows. rows.items ≡ rows_of books.now.books.ledger family.now) }
{
    let mut rows = Vec::new(alloc);
    let mut standing = books.standing();
    while let Some((row, _)) = standing.next_row() {
        if is_same(&row.family, family) {
            rows.push(*row)?;
        }
    }
    Ok(rows)
}

// Whether two families are the same.
#[tactic(auto, using(rx_ledger::proofs::SameText::same_text))]
fn is_same(a: &Id, b: &Id) -> bool
    ensures { result ≡ is_same a.now b.now }
{
    *a == *b
}
