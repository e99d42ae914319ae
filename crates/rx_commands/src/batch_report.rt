ghost use Rattle.std.specs.Prelude.{◌≡◌, ◌≤◌, IfErr, IfOk, length, map};
ghost use Rattle.rx_fields.specs.declared.limits.TheConstants.{MOST_DETAILS};
ghost use Rattle.rx_commands.specs.Adjudicated.{IsAdjudicated};
ghost use Rattle.rx_ledger.specs.Fold.{fold_replies};
ghost use Rattle.rx_commands.specs.Reported.{IsReported, HasContents};
ghost use Rattle.rx_commands.specs.Reversed.{with_reversed};
ghost use Rattle.rx_report.specs.Lines.{lines_of};
ghost use Rattle.rx_switch.specs.Planned.{IsNotPlanned};
ghost use Rattle.rx_wave.specs.Decoding.{transmissions_of};

use crate::inputs::read_inputs;
use crate::replay::Adjudicated;
use crate::reversed::with_reversed;
use rx_batch::Batch;
use rx_books_store::Books;
use rx_d0_values::{Reply, Transmission};
use rx_fields::{Lot, Memory, Stamp};
use rx_io::Inputs;
use rx_ledger::Sheet;
use rx_report::{Line, report_lines};
use rx_serial::Finished;
use rx_settle::{Settled, tally_replies};
use rx_switch::SwitchFault;
use rx_wave::{NoGate, decode_in_parts, run_one};
use std::alloc::Global;
use std::thread::Threads;

/// What a batch is answered, line by line and in all, and the stamp of its run.
#[derive(Drop)]
pub(crate) struct Report {
    /// The batch, with what it was adjudicated on.
    pub batch: Adjudicated,
    /// As it is given, if it is.
    pub stamp: Option<Stamp>,
    /// The lines of its answers, in file order.
    pub lines: Vec<Line>,
    /// The tallies of its settlement.
    pub settled: Settled,
}

/// The lines of a batch's answers and the tallies of its settlement, adjudicated one record after another in file
/// order, with this stamp. It starts no thread.
///
/// # Errors
///
/// The first, in this order, of Sheet, Books and Batch; Memory may stand in place of any other answer.
pub(crate) fn job_report<R: Threads + Sync>(
    rt: &R,
    alloc: Global,
    inputs: &Inputs<&[u8]>,
    stamp: Option<Stamp>,
) -> Result<Report, SwitchFault>
    ensures reported { let given = inputs.now in
        IfOk result (λ report. IsReported given.sheet.now given.books.now given.batch.now report) }
    ensures stamp { IfOk result (λ report. report.stamp ≡ stamp) }
    // So `whys_of` explains its answers.
    ensures ready { IfOk result (λ report. IsAdjudicated report.batch) }
    ensures refused { let given = inputs.now in
        IfErr result (λ fault. IsNotPlanned given.sheet.now given.books.now given.batch.now fault) }
{
    let Inputs {
        sheet,
        books,
        batch,
    } = read_inputs(alloc, inputs)?;
    let answered = adjudicated(rt, alloc, sheet, books, batch)?;
    let report = report_of(alloc, answered, stamp)?;
    Ok(report)
}

// The batch adjudicated on these books.
fn adjudicated<R: Threads + Sync>(
    rt: &R,
    alloc: Global,
    sheet: Sheet,
    books: Books,
    batch: Batch,
) -> Result<Adjudicated, Memory>
    requires { length batch.details ≤ MOST_DETAILS }
    ensures lot { IfOk result (λ b. b.lot ≡ batch.head.lot) }
    ensures sheet { IfOk result (λ b. b.sheet ≡ sheet) }
    ensures opening { IfOk result (λ b. b.opening.ledger ≡ books.ledger) }
    ensures details { IfOk result (λ b. b.details ≡ batch.details) }
    ensures asked { IfOk result (λ b. b.asked.items ≡ transmissions_of sheet.figures.door batch.details) }
    ensures ready { IfOk result IsAdjudicated }
{
    let Answered {
        asked,
        opening,
        replies,
    } = answer_batch(rt, alloc, &sheet, books, &batch)?;
    Ok(Adjudicated {
        lot: batch.head.lot(),
        sheet,
        opening,
        details: batch.details,
        asked,
        replies,
    })
}

/// What a batch asks, the books before its records, and the replies to them.
#[derive(Drop)]
pub(crate) struct Answered {
    pub asked: Vec<Transmission>,
    pub opening: Books,
    pub replies: Vec<Reply>,
}

/// The batch's records answered at this plan.
pub(crate) fn answer_batch<R: Threads + Sync>(
    rt: &R,
    alloc: Global,
    sheet: &Sheet,
    books: Books,
    batch: &Batch,
) -> Result<Answered, Memory>
    requires { length batch.now.details ≤ MOST_DETAILS }
    ensures opening { IfOk result (λ a. a.opening.ledger ≡ books.ledger) }
    ensures asked { IfOk result (λ a. a.asked.items ≡ transmissions_of sheet.now.figures.door batch.now.details) }
    ensures replies { IfOk result (λ a.
        a.replies.items ≡ fold_replies batch.now.head.lot sheet.now 1 a.asked.items books.ledger) }
{
    let opening = books.with_period(alloc, sheet.period())?;
    let Ok(asked) = decode_in_parts(rt, alloc, 1, sheet.door(), batch.details.as_slice()) else {
        drop(opening);
        return Err(Memory);
    };
    let Ok(replies) = replies_to(alloc, batch.head.lot(), sheet, &opening, &asked) else {
        drop((opening, asked));
        return Err(Memory);
    };
    Ok(Answered {
        asked,
        opening,
        replies,
    })
}

// The replies to the records, one after another.
fn replies_to(
    alloc: Global,
    lot: Lot,
    sheet: &Sheet,
    opening: &Books,
    asked: &[Transmission],
) -> Result<Vec<Reply>, Memory>
    requires { length asked.now ≤ MOST_DETAILS }
    ensures { IfOk result (λ replies. replies.items ≡ fold_replies lot sheet.now 1 asked.now opening.now.ledger) }
{
    let Finished { books: _, replies } = run_one(alloc, &NoGate, lot, sheet, opening, asked)?;
    Ok(replies)
}

// What a batch is answered.
fn report_of(alloc: Global, batch: Adjudicated, stamp: Option<Stamp>) -> Result<Report, Memory>
    requires { IsAdjudicated batch }
    ensures same { IfOk result (λ report. report.batch ≡ batch) }
    ensures stamp { IfOk result (λ report. report.stamp ≡ stamp) }
    ensures contents { IfOk result (λ report. HasContents batch.asked.items batch.replies.items report) }
{
    let Ok(lines) = lines_of(alloc, &batch) else {
        drop(batch);
        return Err(Memory);
    };
    let Ok(settled) = tally_replies(alloc, &batch.replies) else {
        drop((batch, lines));
        return Err(Memory);
    };
    Ok(Report {
        batch,
        stamp,
        lines,
        settled,
    })
}

// The lines of its answers, those of reversals with the members of their claims.
#[tactic(auto, using(crate::proofs::Replied::one_each))]
fn lines_of(alloc: Global, batch: &Adjudicated) -> Result<Vec<Line>, Memory>
    requires { IsAdjudicated batch.now }
    ensures { IfOk result (λ lines.
        lines.items ≡ map (with_reversed batch.now) (lines_of batch.now.asked.items batch.now.replies.items)) }
{
    let lines = report_lines(alloc, &batch.asked, &batch.replies)?;
    with_reversed(alloc, batch, &lines)
}
