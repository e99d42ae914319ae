//! A run's response file comes to the run's settlement.
ghost use Rattle.std.specs.Prelude.{◌≡◌, ◌≤◌, ◌∷◌, [], IfErr, IfOk, None, length};
ghost use Rattle.std.specs.List.{AllByRecursion};
ghost use Rattle.rx_fields.specs.declared.limits.TheConstants.{MOST_DETAILS};
ghost use Rattle.rx_ledger.specs.Fold.{fold_replies};
ghost use Rattle.rx_wave.specs.Decoding.{transmissions_of};
ghost use Rattle.rx_d0_reply.specs.Limits.{IsReply};
ghost use Rattle.rx_response.specs.Response.{response_detail, response_details, response_text};
ghost use Rattle.rx_settle.specs.Settlement.{settlement_text};
ghost use Rattle.rx_switch.specs.Job.{given_by};
ghost use Rattle.rx_switch.specs.Output.{IsRefused, stamp_for, texts_of};
ghost use Rattle.rx_commands.specs.Cycle.{IsAnswered, IsCycleText, IsSettledAs, IsSettledBack, IsSettlementOf, cycle_text};
ghost use Rattle.rx_commands.specs.Cycle.{Answered as AnsweredBatch};
ghost use Rattle.rx_commands.specs.CycleSteps.{IsSent, accepted_of, asked_back};

use super::fault::CycleFault;
use super::settle_cycle;
use crate::batch_report::{Answered, answer_batch};
use crate::inputs::read_inputs;
use rx_batch::{Batch, Detail, Head, Kind, Text, write_batch};
use rx_books_store::Books;
use rx_d0_reply::encode;
use rx_d0_values::Reply;
use rx_fields::{Lot, MOST_WORKERS, Memory, Stamp};
use rx_io::Inputs;
use rx_ledger::Sheet;
use rx_response::response_file;
use rx_switch::{Job, SwitchFault};
use std::alloc::Global;
use std::thread::Threads;

/// The law of `rx_response::response_file` and `settle_cycle`: what the second makes of the one file that the first makes of
/// replies to a batch is the settlement of these replies, byte for byte, unless memory runs out. No field of the batch holds
/// STX or ETX, as none does that was read.
pub fn settled_back<R: Threads + Sync>(
    rt: &R,
    alloc: Global,
    head: &Head,
    details: &[Detail],
    stamp: &Stamp,
    replies: &[Reply],
) -> Result<Vec<u8>, CycleFault>
    requires equally_many { length details.now ≡ length replies.now }
    requires within { length details.now ≤ MOST_DETAILS }
    ensures ok { IsSent head.now details.now
        → IfOk result (λ text. text.items ≡ settlement_text head.now.lot stamp.now replies.now) }
    ensures err { IsSent head.now details.now → IfErr result (λ fault. fault ≡ CycleFault.Memory) }
    ensures printed { IfOk result (λ text.
        IsCycleText (response_text head.now stamp.now details.now replies.now ∷ []) None text.items) }
{
    let response = response_file(rt, alloc, head, *stamp, details, replies)?;
    let answers = answered_details(alloc, details, replies)?;
    let batch = write_batch(alloc, &asked_back(head, stamp), &answers)?;
    drop((batch, answers));
    settle_alone(alloc, response)
}

/// The law of `rx_switch::run` and `settle_cycle`: a run of this job gives three texts, and no others
/// (`rx_switch::one_output`); what is printed of the response file among them is the settlement among them, byte for byte.
///
/// # Errors
///
/// Those of a run; no response file is written then.
pub fn run_settled_back<R: Threads + Sync>(
    rt: &R,
    alloc: Global,
    job: &Job<'_>,
) -> Result<Vec<u8>, SwitchFault>
    ensures settled { IfOk result (λ text. IsSettledBack (given_by job.now) text.items) }
    ensures refused { IfErr result (λ fault. IsRefused (given_by job.now) fault) }
{
    let stamp = stamp_for(job)?;
    let texts = Inputs {
        sheet: job.sheet,
        books: job.books,
        batch: job.batch,
    };
    let inputs = read_inputs(alloc, &texts)?;
    let Ok(text) = settlement_of(rt, alloc, inputs, &stamp) else {
        return Err(SwitchFault::Memory);
    };
    Ok(text)
}

// The stamp of a job, as a run reads it.
fn stamp_for(job: &Job<'_>) -> Result<Stamp, SwitchFault>
    ensures { result ≡ stamp_for job.now.workers job.now.stamp.now }
{
    if job.workers < 1 || job.workers > MOST_WORKERS {
        return Err(SwitchFault::Workers);
    }
    Stamp::new(job.stamp).ok_or(SwitchFault::Stamp)
}

// What is printed of the response file of a run on these inputs. They are of files that were read, so only memory can lack.
fn settlement_of<R: Threads + Sync>(
    rt: &R,
    alloc: Global,
    inputs: Inputs<Sheet, Books, Batch>,
    stamp: &Stamp,
) -> Result<Vec<u8>, CycleFault>
    requires within { length inputs.batch.details ≤ MOST_DETAILS }
    requires sent { IsSent inputs.batch.head inputs.batch.details }
    ensures settled { IfOk result (λ text. IsSettlementOf (texts_of (accepted_of inputs stamp.now)) text.items) }
    ensures err { IfErr result (λ fault. fault ≡ CycleFault.Memory) }
{
    let Inputs {
        sheet,
        books,
        batch,
    } = inputs;
    let replies = replies_to(rt, alloc, &sheet, books, &batch)?;
    let details = batch.details.as_slice();
    let printed = settled_back(rt, alloc, &batch.head, details, stamp, &replies);
    drop((sheet, batch, replies));
    let text = printed?;
    Ok(text)
}

// The replies to a batch that is adjudicated on these books.
#[tactic(auto, using(crate::proofs::CycleRun::as_many_replies))]
fn replies_to<R: Threads + Sync>(
    rt: &R,
    alloc: Global,
    sheet: &Sheet,
    books: Books,
    batch: &Batch,
) -> Result<Vec<Reply>, Memory>
    requires { length batch.now.details ≤ MOST_DETAILS }
    ensures replies { IfOk result (λ replies. replies.items ≡ fold_replies batch.now.head.lot sheet.now 1
        (transmissions_of sheet.now.figures.door batch.now.details) books.ledger) }
    ensures as_many { IfOk result (λ replies. length batch.now.details ≡ length replies.items) }
{
    let Answered {
        asked: _,
        opening: _,
        replies,
    } = answer_batch(rt, alloc, sheet, books, batch)?;
    Ok(replies)
}

// The settlement of one file.
fn settle_alone(alloc: Global, response: Vec<u8>) -> Result<Vec<u8>, CycleFault>
    ensures reads { (batch : AnsweredBatch) → IsAnswered response.items batch
        → IsSettledAs result (cycle_text None (batch ∷ [])) }
    ensures printed { IfOk result (λ text. IsCycleText (response.items ∷ []) None text.items) }
{
    let mut files = Vec::new(alloc);
    files.push(response)?;
    settle_cycle(alloc, &files, None)
}

// The header of the response file with the type of a batch file.
fn asked_back(head: &Head, stamp: &Stamp) -> Head
    ensures { result ≡ asked_back head.now stamp.now }
{
    Head {
        kind: Kind::Transmission,
        sender: head.receiver,
        lot: Lot::new(head.lot.number(), stamp.date).unwrap(),
        time: stamp.time,
        file: head.file,
        receiver: head.sender,
    }
}

// The details of the response file, each with the text of a reply within the limits.
fn answered_details(
    alloc: Global,
    details: &[Detail],
    replies: &[Reply],
) -> Result<Vec<Detail>, Memory>
    requires { length details.now ≡ length replies.now }
    ensures same { IfOk result (λ answers. answers.items ≡ response_details details.now replies.now) }
    ensures within { IfOk result (λ _. AllByRecursion IsReply replies.now) }
{
    let mut answers = Vec::with_capacity(alloc, details.len())?;
    for at in 0..details.len() {
        answers.push(answered_detail(alloc, &details[at], &replies[at])?)?;
    }
    Ok(answers)
}

// A detail of the response file, with the text of a reply within the limits.
fn answered_detail(alloc: Global, detail: &Detail, reply: &Reply) -> Result<Detail, Memory>
    ensures same { IfOk result (λ answer. answer ≡ response_detail detail.now reply.now) }
    ensures within { IfOk result (λ _. IsReply reply.now) }
{
    let text = encode(alloc, reply)?;
    Ok(Detail {
        reference: detail.reference,
        text: Text::new(text),
    })
}
