//! Response files read back: the batches that they answer, and the replies to them.
ghost use Rattle.std.specs.Prelude.{◌≡◌, IfErr, IfOk, OnOk, map};
ghost use Rattle.std.specs.Vec.{vec_items};
ghost use Rattle.rx_show.specs.Found.{IsTextOf};
ghost use Rattle.rx_show.specs.ResponseFile.{IsResponse};
ghost use Rattle.rx_commands.specs.Cycle.{IsBadFile, IsNotSettled, run_of};
ghost use Rattle.rx_commands.specs.CycleSteps.{AreAnswers, AreAppended, IsAppended, IsBadDetail, IsNoText, IsNotRead};

use super::fault::CycleFault;
use rx_batch::{Batch, Detail, Head};
use rx_d0_reply::{ReplyFault, decode_reply};
use rx_d0_values::Reply;
use rx_fields::Stamp;
use rx_settle::BatchRun;
use rx_show::read_response;
use std::alloc::Global;

/// The batches of a pay cycle.
#[derive(Drop)]
pub(crate) struct Cycle {
    /// What each batch's settlement says in its head line.
    pub runs: Vec<BatchRun>,
    /// The replies to all of them, one batch after another.
    pub replies: Vec<Reply>,
}

/// The batches that response files answer, in their order.
///
/// # Errors
///
/// The first file that isn't a response file with a reply in each detail; Memory.
pub(crate) fn read_cycle(alloc: Global, files: &[Vec<u8>]) -> Result<Cycle, CycleFault>
    ensures read { IfOk result (λ cycle. AreAnswers (map vec_items files.now) cycle.runs.items cycle.replies.items) }
    ensures refused { IfErr result (IsNotSettled (map vec_items files.now)) }
{
    let mut cycle = Cycle {
        runs: Vec::new(alloc),
        replies: Vec::new(alloc),
    };
    for (at, file) in files.iter().enumerate() {
        add_file(alloc, at, file, &mut cycle)?;
    }
    Ok(cycle)
}

// Adds the batch that a file answers; the file stands at this place.
fn add_file(alloc: Global, at: usize, bytes: &[u8], cycle: &mut Cycle) -> Result<(), CycleFault>
    ensures added { OnOk result (IsAppended bytes.now cycle.old.runs.items cycle.old.replies.items
        cycle.new.runs.items cycle.new.replies.items) }
    ensures refused { IfErr result (IsBadFile at bytes.now) }
{
    let batch = read_file(alloc, at, bytes)?;
    cycle.runs.push(run_of(&batch.head))?;
    add_replies(alloc, at, batch.details.as_slice(), &mut cycle.replies)
}

// What a file is as a response file.
fn read_file(alloc: Global, at: usize, bytes: &[u8]) -> Result<Batch, CycleFault>
    ensures read { IfOk result (λ batch. IsResponse bytes.now batch.head batch.details) }
    ensures refused { IfErr result (IsNotRead at bytes.now) }
{
    match read_response(alloc, bytes) {
        Ok(batch) => Ok(batch),
        Err(fault) => Err(CycleFault::of_response(at, fault)),
    }
}

// What the head line of a batch's settlement says, by the head of its response file.
fn run_of(head: &Head) -> BatchRun
    ensures { result ≡ run_of head.now }
{
    BatchRun {
        lot: head.lot,
        stamp: Stamp {
            date: head.lot.created(),
            time: head.time,
        },
    }
}

// Adds the replies that the details of a file hold.
fn add_replies(
    alloc: Global,
    at: usize,
    details: &[Detail],
    replies: &mut Vec<Reply>,
) -> Result<(), CycleFault>
    ensures added { OnOk result (AreAppended details.now replies.old.items replies.new.items) }
    ensures refused { IfErr result (IsBadDetail at details.now) }
{
    for (before, detail) in details.iter().enumerate() {
        let reply = reply_in(alloc, at, before + 1, detail.text.bytes())?;
        replies.push(reply)?;
    }
    Ok(())
}

// The reply whose text the bytes are; they stand in a file, as the text of the detail at a place.
fn reply_in(alloc: Global, file: usize, place: usize, bytes: &[u8]) -> Result<Reply, CycleFault>
    ensures read { IfOk result (IsTextOf bytes.now) }
    ensures refused { IfErr result (IsNoText file place bytes.now) }
{
    match decode_reply(alloc, bytes) {
        Ok(reply) => Ok(reply),
        Err(ReplyFault::Memory) => Err(CycleFault::Memory),
        Err(fault) => Err(CycleFault::NoReply { file, place, fault }),
    }
}
