ghost use Rattle.std.specs.Prelude.{◌≡◌, ◌<◌, ◌≤◌, [], IfOk, IfSome, OnOk, length};
ghost use Rattle.std.specs.List.{All};
ghost use Rattle.rx_serial.specs.Underway.{IsHolder};

use crate::ahead::looked_after;
use crate::fill::{Course, Entry, Fill, FillKey, when_at};
use rx_books_store::OpenBooks;
use rx_d0_values::{Body, Heard, Transaction, Transmission};
use rx_fields::{Days, Id, Memory, Person};
use std::alloc::Global;

/// Where the members of some records' transactions are listed, in order, with None if there is none; where those of
/// each record begin; and an entry that counts nothing for each fill that the records bill.
#[derive(Drop)]
pub(crate) struct Billed {
    pub(crate) holders: Vec<Option<usize>>,
    pub(crate) firsts: Vec<usize>,
    pub(crate) own: Vec<Entry>,
}

/// What some records bill of the members in books.
pub(crate) fn billed_by(
    alloc: Global,
    books: &OpenBooks,
    records: &[&Transmission],
) -> Result<Billed, Memory>
    ensures holders { IfOk result (λ found. All (IsHolder books.now.books.ledger.members) found.holders.items) }
    ensures own { IfOk result (λ found. All (λ e. e.fill.count ≡ 0) found.own.items) }
{
    let mut found = none_billed(alloc, records.len())?;
    let mut looked = 0;
    for transmission in records {
        looked = looked_after(books, records, looked, found.firsts.len());
        put_record(&mut found, books, transmission)?;
    }
    Ok(found)
}

// Nothing yet, with room for this many records.
fn none_billed(alloc: Global, count: usize) -> Result<Billed, Memory>
    ensures holders { IfOk result (λ found. found.holders.items ≡ []) }
    ensures own { IfOk result (λ found. found.own.items ≡ []) }
{
    let holders = Vec::with_capacity(alloc, count)?;
    let firsts = Vec::with_capacity(alloc, count)?;
    let own = Vec::with_capacity(alloc, count)?;
    Ok(Billed {
        holders,
        firsts,
        own,
    })
}

// Puts what a record bills after the others.
fn put_record(
    found: &mut Billed,
    books: &OpenBooks,
    transmission: &Transmission,
) -> Result<(), Memory>
    requires holders { All (IsHolder books.now.books.ledger.members) found.old.holders.items }
    requires own { All (λ e. e.fill.count ≡ 0) found.old.own.items }
    ensures holders { OnOk result (All (IsHolder books.now.books.ledger.members) found.new.holders.items) }
    ensures own { OnOk result (All (λ e. e.fill.count ≡ 0) found.new.own.items) }
{
    found.firsts.push(found.holders.len())?;
    match &transmission.body {
        Body::Heard(heard) => put_holders(found, books, heard),
        Body::Rejected(_) => Ok(()),
    }
}

// Puts the members and fills of a record after the others.
fn put_holders(found: &mut Billed, books: &OpenBooks, heard: &Heard) -> Result<(), Memory>
    requires holders { All (IsHolder books.now.books.ledger.members) found.old.holders.items }
    requires own { All (λ e. e.fill.count ≡ 0) found.old.own.items }
    ensures holders { OnOk result (All (IsHolder books.now.books.ledger.members) found.new.holders.items) }
    ensures own { OnOk result (All (λ e. e.fill.count ≡ 0) found.new.own.items) }
{
    let list = heard.list.as_slice();
    let mut before = None;
    for transaction in list {
        let holder = holder_in(books, before, transaction);
        before = holder;
        let at = found.holders.len();
        found.holders.push(holder)?;
        put_own(&mut found.own, own_fill(heard, transaction, holder), at)?;
    }
    Ok(())
}

// Where the member of a billing is listed: mostly where that of the transaction before it is.
fn holder_in(books: &OpenBooks, before: Option<usize>, transaction: &Transaction) -> Option<usize>
    requires { IsHolder books.now.books.ledger.members before }
    ensures { IsHolder books.now.books.ledger.members result }
{
    let Transaction::Bill(bill) = transaction else {
        return None;
    };
    let parts = bill.parts();
    if let Some(holder) = before
        && is_member(books, holder, &parts.family, &parts.person)
    {
        return before;
    }
    books.member_of(&parts.family, &parts.person)
}

// Whether the member at a place is this person of the family.
fn is_member(books: &OpenBooks, holder: usize, family: &Id, person: &Person) -> bool
    requires { holder < length books.now.books.ledger.members }
{
    let key = books.member_at(holder).key;
    key.family == *family && key.person == *person
}

// An entry for the fill of a billing whose member is listed. It counts nothing yet.
fn own_fill(heard: &Heard, transaction: &Transaction, holder: Option<usize>) -> Option<Fill>
    ensures { IfSome result (λ f. f.count ≡ 0) }
{
    match (transaction, holder) {
        (Transaction::Bill(bill), Some(holder)) => {
            let parts = bill.parts();
            let course = Course {
                holder,
                product: parts.product,
            };
            let key = FillKey {
                course,
                when: when_at(heard.date, parts.days),
            };
            Some(Fill { key, count: 0 })
        }
        _ => None,
    }
}

// Puts the entry of a transaction after the others, if there is one.
fn put_own(own: &mut Vec<Entry>, fill: Option<Fill>, transaction: usize) -> Result<(), Memory>
    requires own { All (λ e. e.fill.count ≡ 0) own.old.items }
    requires fill { IfSome fill (λ f. f.count ≡ 0) }
    ensures { OnOk result (All (λ e. e.fill.count ≡ 0) own.new.items) }
{
    match fill {
        Some(fill) => {
            own.push(Entry { fill, transaction })?;
            Ok(())
        }
        None => Ok(()),
    }
}

/// The longer of two days supplies.
pub(crate) fn longer(first: Days, second: Days) -> Days
    ensures first { first ≤ result }
    ensures second { second ≤ result }
{
    if first < second { second } else { first }
}

/// The longest days supply of these fills; one day if there are none.
pub(crate) fn longest_of(fills: &[Fill]) -> Days
    ensures { All (λ f. f.key.when.days ≤ result) fills.now }
{
    let mut longest = Days::new(1).unwrap();
    for fill in fills {
        if fill.key.when.days > longest {
            longest = fill.key.when.days;
        }
    }
    longest
}
