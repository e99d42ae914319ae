ghost use Rattle.std.specs.Prelude.{◌≡◌, IfErr, IfOk, Err};
ghost use Rattle.rx_switch.specs.Job.{given_by, texts_in};
ghost use Rattle.rx_switch.specs.Output.{IsOutput, IsRefused, RefusesOne, stamp_for};

use crate::accepting::{BatchFile, BooksFile, accept};
use crate::adjudicating::{Adjudicated, Manner, adjudicate, parts_of, wait_for};
use crate::fault::SwitchFault;
use crate::job::{Job, Output, joined};
use rx_wave::Gate;
use std::alloc::Global;
use std::sync::Wait;
use std::thread::Threads;

/// Adjudicates a batch.
///
/// For every plan sheet, opening books, batch file, stamp and number of workers, where the run succeeds, the response
/// file, end books and settlement are byte for byte those of adjudicating the records one after another in file order,
/// and every family's accumulators are the sums over its standing claims; where it is refused, the written definitions
/// refuse the inputs, or memory or a thread was refused.
///
/// # Errors
///
/// The first, in this order, of Workers, Stamp, Sheet, Books and Batch. Memory may stand in the place of any answer but
/// Workers and Stamp; Thread only where all inputs are accepted, and the gate refuses to start one of two or more workers.
pub fn run<R: Threads + Wait + Sync, G: Gate + Sync>(
    rt: &R,
    alloc: Global,
    gate: &G,
    job: &Job<'_>,
) -> Result<Output, SwitchFault>
    ensures output { IfOk result (λ output. IsOutput (given_by job.now) (texts_in output)) }
    ensures refused { IfErr result (λ fault. IsRefused (given_by job.now) fault) }
    // Workers and Stamp are answered before anything is allocated.
    ensures words { (fault : SwitchFault) → stamp_for job.now.workers job.now.stamp.now ≡ Err fault → result ≡ Err fault }
    ensures thread { result ≡ Err SwitchFault.Thread → RefusesOne job.now.plain (G.starts gate.now) job.now.workers }
{
    let (books, batch) = (BooksFile::Lent(job.books), BatchFile::Bytes(job.batch));
    let accepted = accept(rt, alloc, job.workers, job.stamp, job.sheet, books, batch)?;
    let manner = Manner {
        gate,
        workers: job.workers,
        plain: job.plain,
    };
    let parts = parts_of(job.workers, job.books.len().max(job.batch.len()));
    let Adjudicated { pieces, freeing } = adjudicate(rt, alloc, &manner, parts, accepted)?;
    let output = joined(alloc, pieces);
    wait_for(rt, freeing);
    Ok(output?)
}
