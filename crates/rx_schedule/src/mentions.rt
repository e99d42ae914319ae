ghost use Rattle.std.specs.Prelude.{◌≡◌, ◌++◌, ◌<◌, ◌^◌, IfOk, OnOk, length};
ghost use Rattle.std.specs.List.{Contains, flat_map};
ghost use Rattle.rx_ledger.specs.Ledger.{row_under};
ghost use Rattle.rx_schedule.specs.declared.mentions.Mention.{Mention as MentionValue};
ghost use Rattle.rx_schedule.specs.Mentions.{holders_of, mentions_of, mentions_of_row, name_of_day};
ghost use Rattle.rx_schedule.specs.Mentions.{named_by, named_in, named_of, reversed_by, reversed_in, reversed_of};

use crate::book_names::{name_of_day, name_of_family, name_of_key};
use rx_books_store::Books;
use rx_d0_values::{Body, Heard, Transaction, Transmission};
use rx_fields::{Key, Memory};
use std::alloc::Global;

/// That the record at a place, counted from 0, names a book. Equal books have equal names; two books that differ have
/// one name hardly ever, and then their records are together without need. It is small, since mentions are sorted.
#[derive(Clone, Copy)]
pub(crate) struct Mention {
    pub(crate) name: u32,
    pub(crate) at: u32,
}

/// That the record at a place, counted from 0, reverses a fill key.
#[derive(Clone, Copy)]
pub(crate) struct Reversed {
    pub(crate) key: Key,
    pub(crate) at: u32,
}

/// What the records of a batch mention, which fill keys they reverse, and how many transactions each has, in file order.
#[derive(Drop)]
pub(crate) struct Mentions {
    pub(crate) list: Vec<Mention>,
    pub(crate) reversed: Vec<Reversed>,
    pub(crate) weights: Vec<u32>,
}

/// The mentions of a batch, in the order of their names: each record's fill keys, the families that it bills, and those of
/// the opening rows under the keys that it reverses. These rows are looked up in the order of their keys, which is faster.
pub(crate) fn mentions_of(
    alloc: Global,
    books: &Books,
    transmissions: &[Transmission],
) -> Result<Mentions, Memory>
    requires { length transmissions.now < 2 ^ 32 }
    ensures { let given = mentions_of books.now.ledger transmissions.now (length transmissions.now) in
        IfOk result (λ found. (m : MentionValue) → Contains given m → Contains found.list.items m) }
{
    let mut mentions = named_of(alloc, transmissions)?;
    mentions
        .reversed
        .sort_unstable_by(|first, second| first.key.cmp(&second.key));
    put_holders(&mut mentions.list, books, &mentions.reversed)?;
    mentions.list.sort_unstable_by_key(|mention| mention.name);
    Ok(mentions)
}

/// How many transactions a record has.
pub(crate) fn weight_of(transmission: &Transmission) -> u32 {
    match &transmission.body {
        Body::Rejected(_) => 0,
        Body::Heard(heard) => u32::try_from(heard.list.as_slice().len()).unwrap_or(u32::MAX),
    }
}

// What records mention without the books, in the order of the records.
fn named_of(alloc: Global, transmissions: &[Transmission]) -> Result<Mentions, Memory>
    requires { length transmissions.now < 2 ^ 32 }
    ensures list { IfOk result (λ found. found.list.items ≡ named_of transmissions.now (length transmissions.now)) }
    ensures reversed { IfOk result (λ found. found.reversed.items
        ≡ reversed_of transmissions.now (length transmissions.now)) }
{
    let list = Vec::with_capacity(alloc, transmissions.len().saturating_mul(2))?;
    let weights = Vec::with_capacity(alloc, transmissions.len())?;
    let mut mentions = Mentions {
        list,
        reversed: Vec::new(alloc),
        weights,
    };
    'records: for (at, transmission) in transmissions.iter().enumerate() {
        mentions.put_record(at as u32, &transmission.body)?;
        mentions.weights.push(weight_of(transmission))?;
    }
    Ok(mentions)
}

impl Mentions {
    // Puts what a record mentions after the others.
    fn put_record(&mut self, at: u32, body: &Body) -> Result<(), Memory>
        ensures list { OnOk result (self.new.list.items ≡ self.old.list.items ++ named_in at body.now) }
        ensures reversed { OnOk result (self.new.reversed.items ≡ self.old.reversed.items ++ reversed_in at body.now) }
    {
        match body {
            Body::Rejected(_) => Ok(()),
            Body::Heard(heard) => self.put_heard(at, heard),
        }
    }

    // Puts what all its transactions mention after the others.
    fn put_heard(&mut self, at: u32, heard: &Heard) -> Result<(), Memory>
        ensures list { OnOk result (self.new.list.items
            ≡ self.old.list.items ++ flat_map (named_by at heard.now) heard.now.list) }
        ensures reversed { OnOk result (self.new.reversed.items
            ≡ self.old.reversed.items ++ flat_map (reversed_by at heard.now) heard.now.list) }
    {
        let day = name_of_day(heard);
        'transactions: for transaction in heard.list.as_slice() {
            self.put_transaction(at, heard, day, transaction)?;
        }
        Ok(())
    }

    // Puts what a transaction mentions after the others.
    fn put_transaction(
        &mut self,
        at: u32,
        heard: &Heard,
        day: u64,
        transaction: &Transaction,
    ) -> Result<(), Memory>
        requires { day ≡ name_of_day heard.now.provider heard.now.date }
        ensures list { OnOk result (self.new.list.items ≡ self.old.list.items ++ named_by at heard.now transaction.now) }
        ensures reversed { OnOk result (self.new.reversed.items
            ≡ self.old.reversed.items ++ reversed_by at heard.now transaction.now) }
    {
        match transaction {
            Transaction::Bill(bill) => {
                let parts = bill.parts();
                self.list.push(Mention {
                    name: name_of_family(&parts.family),
                    at,
                })?;
                self.list.push(Mention {
                    name: name_of_key(day, parts.reference),
                    at,
                })?;
            }
            Transaction::Reverse(reversal) => {
                self.list.push(Mention {
                    name: name_of_key(day, reversal.reference),
                    at,
                })?;
                self.reversed.push(Reversed {
                    key: heard.key(reversal.reference),
                    at,
                })?;
            }
            Transaction::Faulty(_) => {}
        }
        Ok(())
    }
}

// Puts the families of the opening rows under reversed keys after the others.
fn put_holders(
    mentions: &mut Vec<Mention>,
    books: &Books,
    reversed: &[Reversed],
) -> Result<(), Memory>
    ensures { OnOk result (mentions.new.items ≡ mentions.old.items ++ holders_of books.now.ledger reversed.now) }
{
    'reversals: for reversal in reversed {
        put_holder(mentions, books, reversal)?;
    }
    Ok(())
}

// Puts the family of the opening row under a reversed key after the others.
fn put_holder(mentions: &mut Vec<Mention>, books: &Books, reversal: &Reversed) -> Result<(), Memory>
    ensures { OnOk result (mentions.new.items
        ≡ mentions.old.items ++ mentions_of_row reversal.now.at (row_under books.now.ledger reversal.now.key)) }
{
    if let Some(row) = books.row(&reversal.key) {
        mentions.push(Mention {
            name: name_of_family(&row.family),
            at: reversal.at,
        })?;
    }
    Ok(())
}
