ghost use Rattle.std.specs.Prelude.{◌≡◌, ◌&&◌, IfOk, map};
ghost use Rattle.std.specs.Ordering.{is_eq};
ghost use Rattle.rx_fields.specs.Order.{key_cmp};
ghost use Rattle.rx_explain.specs.Traces.{last_payment, pays_before, returns_after, source_of, taken_back_at, traced};

use crate::at::At;
use crate::events::{Change, Event, Events};
use rx_fields::{Key, Memory};
use rx_ledger::Row;
use std::alloc::Global;

/// Where a standing claim comes from.
#[derive(Clone, Copy)]
pub enum Source {
    /// The opening books.
    Opening,
    /// The transaction of the batch that was paid.
    Record(At),
    /// It isn't shown: the claim is another pharmacy's (`Explanation::seen`).
    Elsewhere,
}

/// A claim that stands before a transaction, with what came before and comes after. A claim is known by its fill key:
/// authorization numbers may repeat.
#[derive(Clone, Copy)]
pub struct Traced {
    /// The claim.
    pub row: Row,
    /// Where it comes from.
    pub source: Source,
    /// The first later transaction of the batch that takes back a claim under its fill key.
    pub taken_back: Option<At>,
}

/// The row, which stands before the transaction, with its source and its end.
pub(crate) fn trace(events: &Events, at: At, row: Row) -> Traced
    ensures { result ≡ traced events.now at row }
{
    let events = events.near(&row.key);
    Traced {
        row,
        source: source_of(events, &row.key, at),
        taken_back: taken_back_at(events, &row.key, at),
    }
}

/// The same of each of these rows.
pub(crate) fn trace_each(
    alloc: Global,
    events: &Events,
    at: At,
    rows: &[Row],
) -> Result<Vec<Traced>, Memory>
    ensures { IfOk result (λ all. all.items ≡ map (traced events.now at) rows.now) }
{
    let mut all = Vec::with_capacity(alloc, rows.len())?;
    for row in rows {
        all.push(trace(events, at, *row))?;
    }
    Ok(all)
}

// The last payment under the key before the transaction, else the opening books.
fn source_of(events: &[Event], key: &Key, at: At) -> Source
    ensures { result ≡ source_of events.now key.now at }
{
    match last_payment(events, key, at) {
        Some(paid) => Source::Record(paid),
        None => Source::Opening,
    }
}

fn last_payment(events: &[Event], key: &Key, at: At) -> Option<At>
    ensures { result ≡ last_payment events.now key.now at }
{
    events
        .iter()
        .rev()
        .find(|event| pays_before(event, key, at))
        .map(|event| event.at)
}

// The first taking back under the key after the transaction.
fn taken_back_at(events: &[Event], key: &Key, at: At) -> Option<At>
    ensures { result ≡ taken_back_at events.now key.now at }
{
    events
        .iter()
        .find(|event| returns_after(event, key, at))
        .map(|event| event.at)
}

fn pays_before(event: &Event, key: &Key, at: At) -> bool
    ensures { result ≡ pays_before key.now at event.now }
{
    matches!(event.change, Change::Paid) && is_same_key(&event.key, key) && event.at < at
}

fn returns_after(event: &Event, key: &Key, at: At) -> bool
    ensures { result ≡ returns_after key.now at event.now }
{
    matches!(event.change, Change::TakenBack) && is_same_key(&event.key, key) && at < event.at
}

fn is_same_key(a: &Key, b: &Key) -> bool
    ensures { result ≡ is_eq (key_cmp a.now b.now) }
{
    a.cmp(b).is_eq()
}
