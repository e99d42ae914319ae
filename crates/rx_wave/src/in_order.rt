ghost use Rattle.std.specs.Prelude.{◌≡◌, ◌≤◌, IfOk, OnOk, length};
ghost use Rattle.std.specs.List.{All};
ghost use Rattle.rx_fields.specs.declared.limits.TheConstants.{MOST_DETAILS};
ghost use Rattle.rx_ledger.specs.Fold.{fold_ledger, fold_replies};
ghost use Rattle.rx_serial.specs.Underway.{IsAwaited};

use crate::gate::Gate;
use rx_books_store::Books;
use rx_d0_values::{Reply, Transmission};
use rx_fields::{Lot, Memory};
use rx_ledger::Sheet;
use rx_serial::{Finished, InOrder};
use std::alloc::Global;

/// Adjudicates a batch's records one after another in file order, on a copy of the books: the books after them, and a
/// reply to each (docs/RULES.md, "Rules of adjudication"). The gate is passed before and after each record; no worker
/// is started.
pub fn run_one<G: Gate>(
    alloc: Global,
    gate: &G,
    lot: Lot,
    sheet: &Sheet,
    books: &Books,
    transmissions: &[Transmission],
) -> Result<Finished, Memory>
    requires { length transmissions.now ≤ MOST_DETAILS }
    ensures books { IfOk result (λ finished. finished.books ≡ record {
      period = sheet.now.figures.period;
      ledger = fold_ledger lot sheet.now 1 transmissions.now books.now.ledger;
    }) }
    ensures replies { IfOk result (λ finished.
        finished.replies.items ≡ fold_replies lot sheet.now 1 transmissions.now books.now.ledger) }
{
    let books = books.copy(alloc, sheet.period())?;
    run_one_on(alloc, gate, lot, sheet, books, transmissions)
}

/// The same on books that are owned and have the sheet's period, which copies nothing. Without memory they are dropped.
pub fn run_one_on<G: Gate>(
    alloc: Global,
    gate: &G,
    lot: Lot,
    sheet: &Sheet,
    books: Books,
    transmissions: &[Transmission],
) -> Result<Finished, Memory>
    requires period { books.period ≡ sheet.now.figures.period }
    requires few { length transmissions.now ≤ MOST_DETAILS }
    ensures books { IfOk result (λ finished. finished.books ≡ record {
      period = sheet.now.figures.period;
      ledger = fold_ledger lot sheet.now 1 transmissions.now books.ledger;
    }) }
    ensures replies { IfOk result (λ finished.
        finished.replies.items ≡ fold_replies lot sheet.now 1 transmissions.now books.ledger) }
{
    let mut order = InOrder::new(alloc, books, transmissions)?;
    let replies = replies_of(alloc, gate, lot, sheet, &mut order, transmissions)?;
    Ok(Finished {
        books: order.close(),
        replies,
    })
}

// The replies to the records, each on what the earlier ones left.
fn replies_of<G: Gate>(
    alloc: Global,
    gate: &G,
    lot: Lot,
    sheet: &Sheet,
    order: &mut InOrder,
    transmissions: &[Transmission],
) -> Result<Vec<Reply>, Memory>
    requires period { order.old.books.period ≡ sheet.now.figures.period }
    requires few { length transmissions.now ≤ MOST_DETAILS }
    requires awaited { All (IsAwaited order.old) transmissions.now }
    ensures period { OnOk result (order.new.books.period ≡ sheet.now.figures.period) }
    ensures ledger { OnOk result (order.new.books.ledger
        ≡ fold_ledger lot sheet.now 1 transmissions.now order.old.books.ledger) }
    ensures value { IfOk result (λ replies.
        replies.items ≡ fold_replies lot sheet.now 1 transmissions.now order.old.books.ledger) }
{
    let mut replies = Vec::with_capacity(alloc, transmissions.len())?;
    for (at, transmission) in transmissions.iter().enumerate() {
        let place = at + 1;
        let terms = sheet.terms(lot, transmission);
        gate.enter(place);
        let reply = order.record(alloc, &terms, place as u64, transmission)?;
        gate.leave(place);
        replies.push(reply)?;
    }
    Ok(replies)
}
