ghost use Rattle.std.specs.Prelude.{◌≡◌, ◌++◌, ◌||◌, ℕ, List, IfOk, OnOk};
ghost use Rattle.std.specs.List.{flat_map};
ghost use Rattle.rx_fields.specs.Order.{id_cmp, key_cmp};
ghost use Rattle.rx_d0_values.specs.declared.transmission.Transmission.{Transmission as TransmissionValue};
ghost use Rattle.rx_sorted.specs.Ascending.{IsAscending, itself};
ghost use Rattle.rx_schedule.specs.Billed.{HasBilled, has_family};
ghost use Rattle.rx_schedule.specs.Footprints.{families_named, footprint_of, families_in, footprints_of, holders, key_named, keys_in};

use crate::billers::Billers;
use crate::ordered::put_in_order;
use rx_books_parcel::Footprint;
use rx_books_store::Books;
use rx_d0_values::{Body, Heard, Transaction, Transmission};
use rx_fields::{Id, Key, Memory};
use std::alloc::Global;

/// The footprint of each record, in file order: the books that it names, read off the opening books and the records
/// before it (docs/RULES.md, "Footprint").
pub fn footprints(
    alloc: Global,
    books: &Books,
    transmissions: &[Transmission],
) -> Result<Vec<Footprint>, Memory>
    ensures { IfOk result (λ list. list.items ≡ footprints_of books.now.ledger transmissions.now) }
{
    let mut billers = Billers::new(alloc);
    let mut list = Vec::with_capacity(alloc, transmissions.len())?;
    'records: for transmission in transmissions {
        list.push(footprint(alloc, books, &billers, transmission)?)?;
        billers.note(alloc, transmission)?;
    }
    Ok(list)
}

fn footprint(
    alloc: Global,
    books: &Books,
    billers: &Billers,
    transmission: &Transmission,
) -> Result<Footprint, Memory>
    ensures { (earlier : List TransmissionValue) → HasBilled billers.now.families earlier
        → IfOk result (λ made. made ≡ footprint_of books.now.ledger earlier transmission.now.body) }
{
    let mut keys = Vec::new(alloc);
    let mut families = Vec::new(alloc);
    name_books(books, billers, &transmission.body, &mut keys, &mut families)?;
    put_in_order(&mut keys);
    put_in_order(&mut families);
    Ok(made_of(keys, families))
}

// The footprint of lists in order.
fn made_of(keys: Vec<Key>, families: Vec<Id>) -> Footprint
    requires keys { IsAscending key_cmp itself keys.items }
    requires families { IsAscending id_cmp itself families.items }
    ensures { result ≡ record { keys = keys.items; families = families.items } }
{
    match Footprint::new(keys, families) {
        Some(footprint) => footprint,
        None => unreachable!(),
    }
}

// Puts the fill keys and the families of a record after the others.
fn name_books(
    books: &Books,
    billers: &Billers,
    body: &Body,
    keys: &mut Vec<Key>,
    families: &mut Vec<Id>,
) -> Result<(), Memory>
    ensures keys { OnOk result (keys.new.items ≡ keys.old.items ++ keys_in body.now) }
    ensures families { (earlier : List TransmissionValue) → HasBilled billers.now.families earlier → OnOk result
        ((f : List ℕ) → has_family families.new.items f
        ≡ (has_family families.old.items f || has_family (families_in books.now.ledger earlier body.now) f)) }
{
    match body {
        Body::Rejected(_) => Ok(()),
        Body::Heard(heard) => name_all(books, billers, heard, keys, families),
    }
}

// Puts those of all transactions after the others.
fn name_all(
    books: &Books,
    billers: &Billers,
    heard: &Heard,
    keys: &mut Vec<Key>,
    families: &mut Vec<Id>,
) -> Result<(), Memory>
    ensures keys { OnOk result (keys.new.items ≡ keys.old.items ++ flat_map (key_named heard.now) heard.now.list) }
    ensures families { (earlier : List TransmissionValue) → HasBilled billers.now.families earlier → OnOk result
        ((f : List ℕ) → has_family families.new.items f ≡ (has_family families.old.items f
        || has_family (flat_map (families_named books.now.ledger earlier heard.now) heard.now.list) f)) }
{
    'transactions: for transaction in heard.list.as_slice() {
        name_one(books, billers, heard, transaction, keys, families)?;
    }
    Ok(())
}

// Puts the fill key and the families of one transaction after the others.
fn name_one(
    books: &Books,
    billers: &Billers,
    heard: &Heard,
    transaction: &Transaction,
    keys: &mut Vec<Key>,
    families: &mut Vec<Id>,
) -> Result<(), Memory>
    ensures keys { OnOk result (keys.new.items ≡ keys.old.items ++ key_named heard.now transaction.now) }
    ensures families { (earlier : List TransmissionValue) → HasBilled billers.now.families earlier → OnOk result
        ((f : List ℕ) → has_family families.new.items f ≡ (has_family families.old.items f
        || has_family (families_named books.now.ledger earlier heard.now transaction.now) f)) }
{
    match transaction {
        Transaction::Bill(bill) => {
            let parts = bill.parts();
            keys.push(heard.key(parts.reference))?;
            families.push(parts.family)?;
        }
        Transaction::Reverse(reversal) => {
            let key = heard.key(reversal.reference);
            keys.push(key)?;
            name_holders(books, billers, &key, families)?;
        }
        Transaction::Faulty(_) => {}
    }
    Ok(())
}

// Puts the families after the others whose the row under a fill key may be.
fn name_holders(
    books: &Books,
    billers: &Billers,
    key: &Key,
    families: &mut Vec<Id>,
) -> Result<(), Memory>
    ensures { (earlier : List TransmissionValue) → HasBilled billers.now.families earlier → OnOk result
        ((f : List ℕ) → has_family families.new.items f ≡ (has_family families.old.items f
        || has_family (holders books.now.ledger earlier key.now) f)) }
{
    if let Some(row) = books.row(key) {
        families.push(row.family)?;
    }
    billers.put_families(key, families)
}
