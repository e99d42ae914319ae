ghost use Rattle.std.specs.Prelude.{◌≡◌, ◌≤◌, IfErr, IfOk, length, true};
ghost use Rattle.std.specs.List.{flat_map};
ghost use Rattle.std.specs.Vec.{vec_items};
ghost use Rattle.rx_books_store.specs.BooksText.{books_text};
ghost use Rattle.rx_books_text.specs.declared.version.Version.TheVariants.{Three};
ghost use Rattle.rx_fields.specs.declared.limits.TheConstants.{MOST_DETAILS};
ghost use Rattle.rx_ledger.specs.Fold.{fold_ledger, fold_replies};
ghost use Rattle.rx_response.specs.Response.{response_text};
ghost use Rattle.rx_settle.specs.Settlement.{settlement_text};
ghost use Rattle.rx_switch.specs.Job.{accepted_of, texts_in_pieces};
ghost use Rattle.rx_switch.specs.Output.{IsStopped, texts_of};
ghost use Rattle.rx_switch.specs.Rendered.{IsOfReplies, texts_made};
ghost use Rattle.rx_wave.specs.Decoding.{transmissions_of};
ghost use Rattle.rx_wave.specs.Workers.{are_workers};

use crate::accepting::Accepted;
use crate::fault::SwitchFault;
use crate::job::OutputPieces;
use rx_batch::Batch;
use rx_books_store::Books;
use rx_d0_values::{Reply, Transmission};
use rx_fields::{Lot, Memory, Stamp};
use rx_io::{Outputs, Pieces};
use rx_ledger::{Sheet, plain_run};
use rx_response::response_pieces;
use rx_serial::Finished;
use rx_settle::settle;
use rx_wave::{Gate, run_waves};
use std::alloc::Global;
use std::sync::Wait;
use std::thread;
use std::thread::{JoinHandle, Threads};

// The fewest bytes that are worth more threads than one.
const FEWEST_BYTES: usize = 100_000;

/// In how many parts a step goes, in parallel, that has this many bytes: as many as there are workers, one where they
/// are few.
pub(crate) fn parts_of(workers: u16, bytes: usize) -> usize {
    if bytes < FEWEST_BYTES {
        1
    } else {
        workers as usize
    }
}

/// How the records are adjudicated: by this many workers at a gate or, plainly, over lists.
#[derive(Drop)]
pub(crate) struct Manner<'a, G> {
    pub(crate) gate: &'a G,
    pub(crate) workers: u16,
    pub(crate) plain: bool,
}

/// What adjudicating a batch gives: its texts, and the thread that frees what made them, if there is one.
#[derive(Drop)]
pub(crate) struct Adjudicated {
    pub(crate) pieces: OutputPieces,
    pub(crate) freeing: Option<JoinHandle<()>>,
}

/// The texts of adjudicating the details, as if one after another in file order. Rendering and freeing go in this many
/// parts in parallel; one part starts no thread.
pub(crate) fn adjudicate<R: Threads + Wait + Sync, G: Gate + Sync>(
    rt: &R,
    alloc: Global,
    manner: &Manner<'_, G>,
    parts: usize,
    accepted: Accepted,
) -> Result<Adjudicated, SwitchFault>
    requires few { length accepted.batch.details ≤ MOST_DETAILS }
    requires asked { accepted.asked.items ≡ transmissions_of accepted.sheet.figures.door accepted.batch.details }
    requires workers { are_workers manner.now.workers ≡ true }
    ensures output { IfOk result (λ adjudicated. texts_made adjudicated ≡ texts_of (accepted_of accepted)) }
    ensures stopped { IfErr result (λ fault.
        IsStopped manner.now.plain (G.starts manner.now.gate.now) manner.now.workers fault) }
{
    let Accepted {
        stamp,
        sheet,
        books,
        batch,
        asked,
    } = accepted;
    let finished = finish_batch(rt, alloc, manner, &sheet, books, &batch, &asked)?;
    drop(asked);
    let Finished { books, replies } = finished;
    let pieces = render(rt, alloc, parts, &batch, &stamp, books, &replies)?;
    let remains = Remains {
        sheet,
        batch,
        replies,
    };
    Ok(Adjudicated {
        pieces,
        freeing: remains.free(rt, parts),
    })
}

/// Waits for a thread that frees, if there is one.
pub(crate) fn wait_for<R: Threads>(rt: &R, freeing: Option<JoinHandle<()>>) {
    if let Some(freeing) = freeing {
        freeing.join(rt);
    }
}

// What a run needs no more once its texts are made.
#[derive(Drop)]
struct Remains {
    sheet: Sheet,
    batch: Batch,
    replies: Vec<Reply>,
}

impl Remains {
    // Frees them, by a thread of its own where there are several parts and one can be started.
    fn free<R: Threads>(self, rt: &R, parts: usize) -> Option<JoinHandle<()>> {
        if parts < 2 {
            return None;
        }
        match thread::spawn(rt, move || drop(self)) {
            Ok(freeing) => Some(freeing),
            Err(_) => None,
        }
    }
}

// The texts of the replies to a batch's details, and of the books after them, which are freed before the others are made.
fn render<R: Threads + Sync>(
    rt: &R,
    alloc: Global,
    parts: usize,
    batch: &Batch,
    stamp: &Stamp,
    books: Books,
    replies: &[Reply],
) -> Result<OutputPieces, Memory>
    requires equally_many { length batch.now.details ≡ length replies.now }
    requires few { length batch.now.details ≤ MOST_DETAILS }
    ensures { IfOk result (λ output. texts_in_pieces output ≡ record {
      response = response_text batch.now.head stamp.now batch.now.details replies.now;
      books = books_text Three books.period books.ledger;
      settlement = settlement_text batch.now.head.lot stamp.now replies.now;
    }) }
{
    let written = books.write_parts(rt, alloc, parts)?;
    let replied = render_while_freeing(rt, alloc, parts, books, batch, stamp, replies)?;
    Ok(replied.with_books(written))
}

// The texts of the replies to a batch's details. The books are freed before, or by a thread of their own where there are
// several parts.
fn render_while_freeing<R: Threads + Sync>(
    rt: &R,
    alloc: Global,
    parts: usize,
    books: Books,
    batch: &Batch,
    stamp: &Stamp,
    replies: &[Reply],
) -> Result<Replied, Memory>
    requires equally_many { length batch.now.details ≡ length replies.now }
    requires few { length batch.now.details ≤ MOST_DETAILS }
    ensures { IfOk result (IsOfReplies batch.now stamp.now replies.now) }
{
    if parts < 2 {
        drop(books);
        return render_replies(rt, alloc, batch, stamp, replies, parts);
    }
    let (_, replied) = thread::join(
        rt,
        move || drop(books),
        || -> Result<Replied, Memory>
            requires { (length batch.now.details ≡ length replies.now) × (length batch.now.details ≤ MOST_DETAILS) }
            ensures { IfOk result (IsOfReplies batch.entry.now stamp.entry.now replies.entry.now) }
        { render_replies(rt, alloc, batch, stamp, replies, parts) },
    );
    replied
}

// The texts of the replies to a batch's details.
#[derive(Drop)]
pub(crate) struct Replied {
    pub(crate) response: Vec<Vec<u8>>,
    pub(crate) settlement: Vec<u8>,
}

impl Replied {
    // All three texts.
    fn with_books(self, books: Vec<Pieces>) -> OutputPieces
        ensures { result ≡ record { response = self.response; books = books; settlement = self.settlement } }
    {
        let Replied {
            response,
            settlement,
        } = self;
        Outputs {
            response,
            books,
            settlement,
        }
    }
}

// The response file and the settlement.
pub(crate) fn render_replies<R: Threads + Sync>(
    rt: &R,
    alloc: Global,
    batch: &Batch,
    stamp: &Stamp,
    replies: &[Reply],
    parts: usize,
) -> Result<Replied, Memory>
    requires equally_many { length batch.now.details ≡ length replies.now }
    requires few { length batch.now.details ≤ MOST_DETAILS }
    ensures { IfOk result (IsOfReplies batch.now stamp.now replies.now) }
{
    let (lot, stamp) = (batch.head.lot(), *stamp);
    if parts < 2 {
        let response = response_of(rt, alloc, parts, batch, stamp, replies)?;
        let settlement = settle(alloc, lot, stamp, replies)?;
        return Ok(Replied {
            response,
            settlement,
        });
    }
    let (settlement, response) = thread::join(
        rt,
        || -> Result<Vec<u8>, Memory>
            ensures { IfOk result (λ text. text.items ≡ settlement_text lot stamp replies.entry.now) }
        { settle(alloc, lot, stamp, replies) },
        || -> Result<Vec<Vec<u8>>, Memory>
            requires { (length batch.now.details ≡ length replies.now) × (length batch.now.details ≤ MOST_DETAILS) }
            ensures { IfOk result (λ pieces. flat_map vec_items pieces.items
                ≡ response_text batch.entry.now.head stamp batch.entry.now.details replies.entry.now) }
        { response_of(rt, alloc, parts, batch, stamp, replies) },
    );
    Ok(Replied {
        response: response?,
        settlement: settlement?,
    })
}

// The response file, in pieces.
fn response_of<R: Threads + Sync>(
    rt: &R,
    alloc: Global,
    parts: usize,
    batch: &Batch,
    stamp: Stamp,
    replies: &[Reply],
) -> Result<Vec<Vec<u8>>, Memory>
    requires equally_many { length batch.now.details ≡ length replies.now }
    requires few { length batch.now.details ≤ MOST_DETAILS }
    ensures { IfOk result (λ pieces. flat_map vec_items pieces.items
        ≡ response_text batch.now.head stamp batch.now.details replies.now) }
{
    let details = batch.details.as_slice();
    response_pieces(rt, alloc, parts, &batch.head, stamp, details, replies)
}

// The books after a batch's records, with the totals of the sheet's period, and the replies to them.
fn finish_batch<R: Threads + Wait + Sync, G: Gate + Sync>(
    rt: &R,
    alloc: Global,
    manner: &Manner<'_, G>,
    sheet: &Sheet,
    books: Books,
    batch: &Batch,
    asked: &[Transmission],
) -> Result<Finished, SwitchFault>
    requires few { length batch.now.details ≤ MOST_DETAILS }
    requires asked { asked.now ≡ transmissions_of sheet.now.figures.door batch.now.details }
    requires workers { are_workers manner.now.workers ≡ true }
    ensures books { IfOk result (λ finished. finished.books ≡ record {
      period = sheet.now.figures.period;
      ledger = fold_ledger batch.now.head.lot sheet.now 1
          (transmissions_of sheet.now.figures.door batch.now.details) books.ledger;
    }) }
    ensures replies { IfOk result (λ finished. finished.replies.items ≡ fold_replies batch.now.head.lot sheet.now 1
        (transmissions_of sheet.now.figures.door batch.now.details) books.ledger) }
    ensures stopped { IfErr result (λ fault.
        IsStopped manner.now.plain (G.starts manner.now.gate.now) manner.now.workers fault) }
{
    finish(rt, alloc, manner, batch.head.lot(), sheet, books, asked)
}

// The same of records that are decoded.
fn finish<R: Threads + Wait + Sync, G: Gate + Sync>(
    rt: &R,
    alloc: Global,
    manner: &Manner<'_, G>,
    lot: Lot,
    sheet: &Sheet,
    books: Books,
    asked: &[Transmission],
) -> Result<Finished, SwitchFault>
    requires few { length asked.now ≤ MOST_DETAILS }
    requires workers { are_workers manner.now.workers ≡ true }
    ensures books { IfOk result (λ finished. finished.books ≡ record {
      period = sheet.now.figures.period;
      ledger = fold_ledger lot sheet.now 1 asked.now books.ledger;
    }) }
    ensures replies { IfOk result (λ finished.
        finished.replies.items ≡ fold_replies lot sheet.now 1 asked.now books.ledger) }
    ensures stopped { IfErr result (λ fault.
        IsStopped manner.now.plain (G.starts manner.now.gate.now) manner.now.workers fault) }
{
    if manner.plain {
        let finished = finish_plainly(alloc, lot, sheet, &books, asked);
        drop(books);
        return Ok(finished?);
    }
    let books = books.with_period(alloc, sheet.period())?;
    let (gate, workers) = (manner.gate, manner.workers);
    let finished = run_waves(rt, alloc, gate, workers, lot, sheet, &books, asked);
    drop(books);
    Ok(finished?)
}

// The same over plain lists.
fn finish_plainly(
    alloc: Global,
    lot: Lot,
    sheet: &Sheet,
    books: &Books,
    asked: &[Transmission],
) -> Result<Finished, Memory>
    requires { length asked.now ≤ MOST_DETAILS }
    ensures replies { IfOk result (λ finished.
        finished.replies.items ≡ fold_replies lot sheet.now 1 asked.now books.now.ledger) }
    ensures books { IfOk result (λ finished. finished.books ≡ record {
      period = sheet.now.figures.period;
      ledger = fold_ledger lot sheet.now 1 asked.now books.now.ledger;
    }) }
{
    let opening = books.ledger(alloc)?;
    let ran = plain_run(alloc, lot, sheet, &opening, asked);
    drop(opening);
    let (after, replies) = ran?;
    let books = Books::from_ledger(alloc, &after, sheet.period());
    drop(after);
    let books = books?;
    Ok(Finished { books, replies })
}
