//! The families that a record names.
ghost use Rattle.std.specs.Prelude.{◌≡◌, ◌++◌, IfOk, OnOk};
ghost use Rattle.std.specs.List.{flat_map};
ghost use Rattle.rx_ledger.specs.Ledger.{row_under};
ghost use Rattle.rx_ledger.specs.Members.{is_same};
ghost use Rattle.rx_commands.specs.ExcerptParts.{families_in, families_of, holder_of, is_one_of};

use rx_books_store::Books;
use rx_d0_values::{Body, Heard, Transaction};
use rx_fields::{Id, Key, Memory};
use std::alloc::Global;

/// The families that a record names on books: those that it bills, and those whose claims stand under its fill keys.
pub(crate) fn families_in(alloc: Global, books: &Books, body: &Body) -> Result<Vec<Id>, Memory>
    ensures { IfOk result (λ families. families.items ≡ families_in body.now books.now.ledger) }
{
    match body {
        Body::Rejected(_) => Ok(Vec::new(alloc)),
        Body::Heard(heard) => families_of_all(alloc, books, heard),
    }
}

fn families_of_all(alloc: Global, books: &Books, heard: &Heard) -> Result<Vec<Id>, Memory>
    ensures { IfOk result (λ families.
        families.items ≡ flat_map (families_of heard.now books.now.ledger) heard.now.list) }
{
    let mut families = Vec::new(alloc);
    'transactions: for transaction in heard.list.as_slice() {
        put_families(books, heard, transaction, &mut families)?;
    }
    Ok(families)
}

// Puts the families of one transaction after the others.
#[tactic(auto, using(std::proofs::Common::append_assoc))]
fn put_families(
    books: &Books,
    heard: &Heard,
    transaction: &Transaction,
    families: &mut Vec<Id>,
) -> Result<(), Memory>
    ensures { OnOk result (families.new.items
        ≡ families.old.items ++ families_of heard.now books.now.ledger transaction.now) }
{
    match transaction {
        Transaction::Bill(bill) => {
            let parts = bill.parts();
            families.push(parts.family)?;
            put_holder(books, &heard.key(parts.reference), families)
        }
        Transaction::Reverse(reversal) => {
            put_holder(books, &heard.key(reversal.reference), families)
        }
        Transaction::Faulty(_) => Ok(()),
    }
}

// Puts the family whose claim stands under a fill key after the others.
fn put_holder(books: &Books, key: &Key, families: &mut Vec<Id>) -> Result<(), Memory>
    ensures { OnOk result (families.new.items
        ≡ families.old.items ++ holder_of (row_under books.now.ledger key.now)) }
{
    let Some(row) = books.row(key) else {
        return Ok(());
    };
    Ok(families.push(row.family)?)
}

/// Whether a family is one of these.
pub(crate) fn is_one_of(families: &[Id], family: &Id) -> bool
    ensures { result ≡ is_one_of families.now family.now }
{
    families.iter().any(|one| is_same(family, one))
}

// Whether two families are the same.
#[tactic(auto, using(rx_ledger::proofs::SameText::same_text))]
fn is_same(a: &Id, b: &Id) -> bool
    ensures { result ≡ is_same a.now b.now }
{
    *a == *b
}
