ghost use Rattle.std.specs.Prelude.{◌≡◌, ◌≤◌, ◌==◌, IfErr, IfOk, length};
ghost use Rattle.std.specs.List.{All, AllZip, find};
ghost use Rattle.std.specs.Option.{option_copied};
ghost use Rattle.rx_commands.specs.Records.{AreDecided, IsAt};
ghost use Rattle.rx_fields.specs.declared.limits.TheConstants.{MOST_DETAILS};
ghost use Rattle.rx_ledger.specs.Fold.{fold_replies};
ghost use Rattle.rx_switch.specs.Planned.{IsNotPlanned};
ghost use Rattle.rx_commands.specs.Retraced.{AreExplained, IsRetraced, near_in};

mod asked;
mod response;

use crate::inputs::read_inputs;
use crate::replay::{Batch, Explained, Replayed, explain_each, replay, traced};
use crate::tiers::Tiers;
use asked::asked_in;
use rx_batch::Details;
use rx_books_store::Books;
use rx_d0_values::{Reply, Transmission};
use rx_explain::{At, Events, Explanation, Query, find, item, place_at};
use rx_fields::{Lot, Memory};
use rx_io::Inputs;
use rx_ledger::{Figures, Sheet};
use rx_switch::SwitchFault;
use rx_wave::decode_in_parts;
use std::alloc::Global;
use std::thread::Threads;

/// A batch replayed, with the explanations that were asked for.
#[derive(Drop)]
pub(crate) struct Retraced {
    /// The batch's lot.
    pub lot: Lot,
    /// The plan's figures.
    pub figures: Figures,
    /// The names of its tiers.
    pub tiers: Tiers,
    /// The details of the batch.
    pub details: Details,
    /// What they ask.
    pub asked: Vec<Transmission>,
    /// The replies to them.
    pub replies: Vec<Reply>,
    /// An explanation of each transaction that was asked for, in order.
    pub explanations: Vec<Option<Explanation>>,
    /// Where transactions stand that may be meant, if there is none: of the record, or of the prescription at any pharmacy.
    pub near: Vec<At>,
}

/// The transactions that are asked for, explained, from the texts of a job. It starts no thread.
///
/// # Errors
///
/// The first, in this order, of Sheet, Books and Batch; Memory may stand in place of any other answer.
pub(crate) fn retrace<R: Threads + Sync>(
    rt: &R,
    alloc: Global,
    inputs: &Inputs<&[u8]>,
    query: &Query,
) -> Result<Retraced, SwitchFault>
    ensures retraced { let given = inputs.now in IfOk result (λ retraced.
        IsRetraced given.sheet.now given.books.now given.batch.now query.now retraced) }
    ensures refused { let given = inputs.now in
        IfErr result (λ fault. IsNotPlanned given.sheet.now given.books.now given.batch.now fault) }
{
    let Inputs {
        sheet,
        books,
        batch,
    } = read_inputs(alloc, inputs)?;
    let Ok(asked) = decode_in_parts(rt, alloc, 1, sheet.door(), batch.details.as_slice()) else {
        drop((sheet, books, batch));
        return Err(SwitchFault::Memory);
    };
    let lot = batch.head.lot();
    let answered = answer(alloc, lot, &sheet, books, &asked, query);
    let figures = *sheet.figures();
    drop(sheet);
    let Ok(answered) = answered else {
        drop((batch, asked));
        return Err(SwitchFault::Memory);
    };
    let Ok(tiers) = Tiers::read(alloc, inputs.sheet) else {
        drop((batch, asked, answered));
        return Err(SwitchFault::Memory);
    };
    Ok(Retraced {
        lot,
        figures,
        tiers,
        details: batch.details,
        asked,
        replies: answered.replies,
        explanations: answered.explanations,
        near: answered.near,
    })
}

// The replies to a batch, and what was asked for.
#[derive(Drop)]
struct Answered {
    replies: Vec<Reply>,
    explanations: Vec<Option<Explanation>>,
    near: Vec<At>,
}

// The replies to the records, one after another, and the explanations that are asked for.
#[tactic(auto, using(crate::proofs::Replied::one_each))]
fn answer(
    alloc: Global,
    lot: Lot,
    sheet: &Sheet,
    books: Books,
    asked: &[Transmission],
    query: &Query,
) -> Result<Answered, Memory>
    requires { length asked.now ≤ MOST_DETAILS }
    ensures replies { IfOk result (λ a. a.replies.items ≡ fold_replies lot sheet.now 1 asked.now books.ledger) }
    ensures explained { IfOk result (λ a.
        AreExplained lot sheet.now asked.now books.ledger query.now a.replies.items a.explanations.items) }
    ensures near { IfOk result (λ a. a.near.items ≡ near_in query.now asked.now a.replies.items) }
{
    let opening = books.with_period(alloc, sheet.period())?;
    let batch = Batch {
        lot,
        sheet,
        opening: &opening,
        asked,
    };
    let replayed = replay_asked(alloc, &batch, query)?;
    let explanations = explain_query(alloc, &batch, query, &replayed);
    drop(opening);
    let Replayed { replies, explained } = replayed;
    drop(explained);
    let explanations = explanations?;
    let near = near_in(alloc, query, asked, &replies)?;
    Ok(Answered {
        replies,
        explanations,
        near,
    })
}

// Where transactions stand that may be meant, where none is what is asked for.
#[tactic(auto, using(crate::proofs::Replied::one_each))]
fn near_in(
    alloc: Global,
    query: &Query,
    asked: &[Transmission],
    replies: &[Reply],
) -> Result<Vec<At>, Memory>
    requires few { length asked.now ≤ MOST_DETAILS }
    requires each { length replies.now ≡ length asked.now }
    ensures { IfOk result (λ near. near.items ≡ near_in query.now asked.now replies.now) }
{
    match query {
        Query::One(at) => find(alloc, &Query::Place(at.place), asked, replies),
        Query::ReferenceAt(reference, _) => {
            find(alloc, &Query::Reference(*reference), asked, replies)
        }
        _ => Ok(Vec::new(alloc)),
    }
}

// The replies to the records, and what decided those that are asked for, as far as the requests say.
fn replay_asked(alloc: Global, batch: &Batch<'_>, query: &Query) -> Result<Replayed, Memory>
    requires { length batch.now.asked.now ≤ MOST_DETAILS }
    ensures replies { IfOk result (λ r.
        r.replies.items ≡ fold_replies batch.now.lot batch.now.sheet.now 1 batch.now.asked.now batch.now.opening.now.ledger) }
    ensures explained { IfOk result (λ r. All (λ k. AreDecided batch.now k.place k.facts.items) r.explained.items) }
{
    let places = asked_in(alloc, batch.lot, query, batch.asked)?;
    replay(alloc, batch, &places)
}

// The explanations that are asked for, of a batch that was replayed.
#[tactic(auto, using(crate::proofs::Replied::one_each))]
fn explain_query(
    alloc: Global,
    batch: &Batch<'_>,
    query: &Query,
    replayed: &Replayed,
) -> Result<Vec<Option<Explanation>>, Memory>
    requires few { length batch.now.asked.now ≤ MOST_DETAILS }
    requires replies { replayed.now.replies.items
        ≡ fold_replies batch.now.lot batch.now.sheet.now 1 batch.now.asked.now batch.now.opening.now.ledger }
    requires explained { All (λ k. AreDecided batch.now k.place k.facts.items) replayed.now.explained.items }
    ensures { IfOk result (λ all. AreExplained batch.now.lot batch.now.sheet.now batch.now.asked.now
        batch.now.opening.now.ledger query.now replayed.now.replies.items all.items) }
{
    let found = find(alloc, query, batch.asked, &replayed.replies)?;
    let events = Events::of(alloc, batch.asked, &replayed.replies)?;
    explain_found(alloc, batch, &events, &replayed.explained, &found)
}

// An explanation of each of these transactions among what the batch changed: by what was noted on the way, or else of all by
// one more pass over the batch, which only an authorization number of the opening books takes.
fn explain_found(
    alloc: Global,
    batch: &Batch<'_>,
    events: &Events,
    explained: &[Explained],
    found: &[At],
) -> Result<Vec<Option<Explanation>>, Memory>
    requires few { length batch.now.asked.now ≤ MOST_DETAILS }
    requires explained { All (λ k. AreDecided batch.now k.place k.facts.items) explained.now }
    ensures { IfOk result (λ all. AllZip (IsAt batch.now events.now) found.now all.items) }
{
    let mut explanations = Vec::with_capacity(alloc, found.len())?;
    for nth in 0..found.len() {
        let at = place_at(found, nth);
        let Some(record) = record_at(explained, at.place) else {
            return explain_each(alloc, batch, events, found);
        };
        let facts = item(&record.facts, at.nth);
        explanations.push(traced(alloc, events, facts)?)?;
    }
    Ok(explanations)
}

// The record at a place, where it was explained.
fn record_at(explained: &[Explained], place: u64) -> Option<&Explained>
    ensures { option_copied result ≡ find (λ k. k.place == place) explained.now }
{
    explained.iter().find(|record| record.place == place)
}
