use crate::in_order::InOrder;
use rx_books_store::OpenBooks;
use rx_d0_values::{Body, Transaction, Transmission};

// How many records or transactions are looked at ahead.
const AHEAD: usize = 16;

// What is looked up of records that are next is looked at before, by which the processor has it near then. No look hangs on
// another, so the processor waits for many of them at once. The looks promise nothing.

/// Up to which record the members were looked at where they are probably listed, where a record is the next: those of some are
/// looked at from there on where none was yet.
pub(crate) fn looked_after(
    books: &OpenBooks,
    records: &[&Transmission],
    looked: usize,
    next: usize,
) -> usize {
    if next < looked {
        return looked;
    }
    let mut at = next;
    for _ in 0..AHEAD {
        let Some(transmission) = records.get(at) else {
            return at.saturating_add(1);
        };
        at = at.saturating_add(1);
        if !is_seen(books, transmission) {
            return at;
        }
    }
    at
}

// Looks where the member of the first billing of a record is probably listed.
fn is_seen(books: &OpenBooks, transmission: &Transmission) -> bool {
    let Body::Heard(heard) = &transmission.body else {
        return true;
    };
    match heard.list.as_slice().first() {
        Some(Transaction::Bill(bill)) => {
            let parts = bill.parts();
            books.is_member_seen(&parts.family, &parts.person)
        }
        _ => true,
    }
}

impl InOrder {
    /// Up to which transaction the slots, members, totals and fills were looked at, where a transaction is the next: those of some
    /// are looked at from there on where none was yet.
    pub(crate) fn looked_after(&self, looked: usize, next: usize) -> usize {
        if next < looked {
            return looked;
        }
        let mut at = next;
        for _ in 0..AHEAD {
            let Some(slot) = self.slots.get(at) else {
                return at.saturating_add(1);
            };
            let is_seen = self.books.is_slot_seen(*slot)
                && self.is_fill_seen(at)
                && self.are_totals_seen(at);
            at = at.saturating_add(1);
            if !is_seen {
                return at;
            }
        }
        at
    }

    // Looks at the member and the totals of a transaction's member.
    fn are_totals_seen(&self, transaction: usize) -> bool {
        match self.holders.get(transaction) {
            Some(Some(holder)) => self.books.are_totals_seen(*holder),
            _ => true,
        }
    }

    // Looks at the entry of a transaction's own fill.
    fn is_fill_seen(&self, transaction: usize) -> bool {
        let Some(place) = self.own.get(transaction) else {
            return true;
        };
        match self.fills.as_slice().get(*place) {
            Some(fill) => fill.count < u64::MAX,
            None => true,
        }
    }
}
