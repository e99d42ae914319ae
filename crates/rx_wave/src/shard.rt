ghost use Rattle.std.specs.Prelude.{◌≡◌, ◌≤◌, ◌↔◌, IfOk, OnOk, length, map};
ghost use Rattle.std.specs.List.{All, Contains};
ghost use Rattle.rx_fields.specs.declared.key.Key.{Key as KeyValue};
ghost use Rattle.rx_fields.specs.declared.limits.TheConstants.{MOST_DETAILS};
ghost use Rattle.rx_schedule.specs.Footprints.{record_at};
ghost use Rattle.rx_schedule.specs.Shards.{keys_at, ledger_of, replies_of};
ghost use Rattle.rx_serial.specs.Underway.{IsAwaited};
ghost use Rattle.rx_wave.specs.Jobs.{ArePlaces, HasRun, IsJob, IsPlaceOf};

use crate::gate::Gate;
use crate::job::Job;
use rx_books_store::{Books, OpenBooks};
use rx_d0_values::{Reply, Transmission};
use rx_fields::{Key, Lot, Memory};
use rx_ledger::Sheet;
use rx_serial::{Finished, InOrder};
use std::alloc::Global;

/// What the records of a shard leave: the books, the fill keys that they name, and a reply to each record.
#[derive(Drop)]
pub(crate) struct Ended {
    pub(crate) books: OpenBooks,
    pub(crate) keys: Vec<Key>,
    pub(crate) replies: Vec<Reply>,
}

/// Adjudicates the records at these places, one after another in file order, on a copy of the opening books.
pub(crate) fn run_shard<G: Gate>(
    gate: &G,
    alloc: Global,
    job: &Job<'_>,
    places: &[usize],
) -> Result<Ended, Memory>
    requires job { IsJob job.now }
    requires places { ArePlaces job.now places.now }
    ensures { IfOk result (HasRun job.now places.now) }
{
    let mut order = order_of(alloc, job, places)?;
    let replies = replies_to(gate, alloc, job, &mut order, places)?;
    let ended = order.into_parts();
    Ok(Ended {
        books: ended.books,
        keys: ended.keys,
        replies,
    })
}

/// Adjudicates those records of a batch that stand at these places, one after another, on a copy of the books: the books
/// after them, and a reply to each of them, in the order of the places. The places are those of the batch, counted from 1, so
/// authorization numbers are as in a run of all records. The gate is passed before and after each record; no worker is
/// started.
pub fn run_places<G: Gate>(
    gate: &G,
    alloc: Global,
    lot: Lot,
    sheet: &Sheet,
    books: &Books,
    transmissions: &[Transmission],
    places: &[usize],
) -> Result<Finished, Memory>
    requires period { books.now.period ≡ sheet.now.figures.period }
    requires few { length transmissions.now ≤ MOST_DETAILS }
    requires places { All (IsPlaceOf (length transmissions.now)) places.now }
    ensures books { IfOk result (λ finished. finished.books ≡ record {
      period = sheet.now.figures.period;
      ledger = ledger_of lot sheet.now transmissions.now places.now books.now.ledger;
    }) }
    ensures replies { IfOk result (λ finished.
        finished.replies.items ≡ replies_of lot sheet.now transmissions.now places.now books.now.ledger) }
{
    let job = Job {
        lot,
        sheet,
        books,
        transmissions,
    };
    let ended = run_shard(gate, alloc, &job, places)?;
    let Ended { books, replies, .. } = ended;
    let books = books.close();
    Ok(Finished { books, replies })
}

// A copy of the opening books, on which the records at these places are awaited.
fn order_of(alloc: Global, job: &Job<'_>, places: &[usize]) -> Result<InOrder, Memory>
    requires job { IsJob job.now }
    requires places { ArePlaces job.now places.now }
    ensures period { IfOk result (λ order. order.books.period ≡ job.now.sheet.now.figures.period) }
    ensures ledger { IfOk result (λ order. order.books.ledger ≡ job.now.books.now.ledger) }
    ensures awaited { IfOk result (λ order. All (λ place. IsAwaited order (record_at job.now.transmissions.now place)) places.now) }
    ensures keys { IfOk result (λ order. (key : KeyValue)
        → Contains order.keys key ↔ Contains (keys_at job.now.transmissions.now places.now) key) }
{
    let records = records_at(alloc, job.transmissions, places)?;
    let books = job.books.copy(alloc, job.sheet.period())?;
    InOrder::of_records(alloc, books, &records)
}

// The records at these places.
fn records_at<'a>(
    alloc: Global,
    transmissions: &'a [Transmission],
    places: &[usize],
) -> Result<Vec<&'a Transmission>, Memory>
    requires { All (IsPlaceOf (length transmissions.now)) places.now }
    ensures { IfOk result (λ records. map (λ t. t.now) records.items ≡ map (record_at transmissions.now) places.now) }
{
    let mut records = Vec::with_capacity(alloc, places.len())?;
    for place in places {
        records.push(&transmissions[*place - 1])?;
    }
    Ok(records)
}

// The replies to the records at these places, each on what the earlier ones left.
fn replies_to<G: Gate>(
    gate: &G,
    alloc: Global,
    job: &Job<'_>,
    order: &mut InOrder,
    places: &[usize],
) -> Result<Vec<Reply>, Memory>
    requires job { IsJob job.now }
    requires places { ArePlaces job.now places.now }
    requires period { order.old.books.period ≡ job.now.sheet.now.figures.period }
    requires awaited { All (λ place. IsAwaited order.old (record_at job.now.transmissions.now place)) places.now }
    ensures period { OnOk result (order.new.books.period ≡ job.now.sheet.now.figures.period) }
    ensures keys { OnOk result (order.new.keys ≡ order.old.keys) }
    ensures ledger { OnOk result (order.new.books.ledger
        ≡ ledger_of job.now.lot job.now.sheet.now job.now.transmissions.now places.now order.old.books.ledger) }
    ensures value { IfOk result (λ replies. replies.items
        ≡ replies_of job.now.lot job.now.sheet.now job.now.transmissions.now places.now order.old.books.ledger) }
{
    let mut replies = Vec::with_capacity(alloc, places.len())?;
    for place in places {
        let transmission = &job.transmissions[*place - 1];
        let terms = job.sheet.terms(job.lot, transmission);
        gate.enter(*place);
        let reply = order.record(alloc, &terms, *place as u64, transmission)?;
        gate.leave(*place);
        replies.push(reply)?;
    }
    Ok(replies)
}
