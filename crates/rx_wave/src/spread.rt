ghost use Rattle.std.specs.Prelude.{◌≡◌, ◌<◌, ◌≤◌, ℕ, IfOk, IfSome, Ok, Some, length, map, slice_get, slice_index_or};
ghost use Rattle.std.specs.List.{All};
ghost use Rattle.rx_schedule.specs.Shards.{list_at};
ghost use Rattle.rx_wave.specs.Jobs.{ArePlaces, HasRun, HaveRun, IsFinished, IsJob, IsOpenedAt};
ghost use Rattle.rx_wave.specs.declared.job.Job.{Job as JobValue};
ghost use Rattle.rx_wave.specs.declared.shard.Ended.{Ended as EndedValue};

use crate::gate::{Deal, Gate};
use crate::job::Job;
use crate::joined::{joined, opened};
use crate::shard::{Ended, run_shard};
use rx_books_store::{Books, OpenBooks};
use rx_d0_values::Transmission;
use rx_fields::{Lot, Memory};
use rx_ledger::Sheet;
use rx_schedule::{Shards, shards};
use rx_serial::Finished;
use std::alloc::{AllocError, Global};
use std::thread;
use std::thread::Threads;

/// Adjudicates a batch in shards, as many as there are workers or fewer, each by a thread of its own: no book is of two
/// shards, so nothing is locked and nothing waits. None where the records fall into one shard.
pub(crate) fn run_in_shards<R: Threads + Sync, G: Gate + Sync>(
    rt: &R,
    alloc: Global,
    gate: &G,
    workers: u16,
    job: &Job<'_>,
) -> Result<Option<Finished>, Memory>
    requires several { 2 ≤ workers }
    requires job { IsJob job.now }
    ensures { IfOk result (λ answer. IfSome answer (IsFinished job.now)) }
{
    let (opened, ran) = opened_and_run(
        rt,
        alloc,
        gate,
        workers,
        job.sheet,
        job.books,
        job.lot,
        job.transmissions,
    );
    let Some(Ran { shards, ended }) = ran? else {
        return Ok(None);
    };
    let finished = joined(rt, alloc, job, opened?, &shards, ended)?;
    Ok(Some(finished))
}

/// The shards of the records, and what each leaves.
#[derive(Drop)]
pub(crate) struct Ran {
    shards: Shards,
    ended: Vec<Ended>,
}

// The opened books that are to take the shards over, and the shards, which are dealt out and run: side by side. No shards
// where the records fall into one.
fn opened_and_run<R: Threads + Sync, G: Gate + Sync>(
    rt: &R,
    alloc: Global,
    gate: &G,
    workers: u16,
    sheet: &Sheet,
    books: &Books,
    lot: Lot,
    transmissions: &[Transmission],
) -> (Result<OpenBooks, Memory>, Result<Option<Ran>, Memory>)
    requires several { 2 ≤ workers }
    requires job { IsJob (record { lot = lot; sheet = sheet; books = books; transmissions = transmissions }) }
    ensures opened { IfOk result.0 (IsOpenedAt sheet.now.figures.period books.now.ledger transmissions.now) }
    ensures run { let job : JobValue =
        record { lot = lot; sheet = sheet.entry; books = books.entry; transmissions = transmissions.entry } in
        IfOk result.1 (λ ran. IfSome ran (λ ran. HaveRun job ran.shards.numbers.items ran.ended.items)) }
{
    let period = sheet.period();
    thread::join(
        rt,
        || -> Result<OpenBooks, Memory>
            ensures { IfOk result (IsOpenedAt period books.entry.now.ledger transmissions.entry.now) }
        { opened(alloc, period, books, transmissions) },
        || -> Result<Option<Ran>, Memory>
            requires several { 2 ≤ workers }
            requires job { IsJob (record { lot = lot; sheet = sheet; books = books; transmissions = transmissions }) }
            ensures { let job : JobValue =
                record { lot = lot; sheet = sheet.entry; books = books.entry; transmissions = transmissions.entry } in
                IfOk result (λ ran. IfSome ran (λ ran. HaveRun job ran.shards.numbers.items ran.ended.items)) }
        { dealt_and_run(rt, alloc, gate, workers, transmissions, books, sheet, lot) },
    )
}

// The shards of the records, dealt out, and what each leaves. None where the records fall into one.
fn dealt_and_run<R: Threads + Sync, G: Gate + Sync>(
    rt: &R,
    alloc: Global,
    gate: &G,
    workers: u16,
    transmissions: &[Transmission],
    books: &Books,
    sheet: &Sheet,
    lot: Lot,
) -> Result<Option<Ran>, Memory>
    requires several { 2 ≤ workers }
    requires job { IsJob (record { lot = lot; sheet = sheet; books = books; transmissions = transmissions }) }
    ensures { let job : JobValue =
        record { lot = lot; sheet = sheet.entry; books = books.entry; transmissions = transmissions.entry } in
        IfOk result (λ ran. IfSome ran (λ ran. HaveRun job ran.shards.numbers.items ran.ended.items)) }
{
    let shards = shards(alloc, books, transmissions, workers as usize)?;
    gate.deal(&Deal {
        shards: shards.count,
        largest: shards.largest,
        transactions: shards.transactions,
    });
    if shards.count < 2 {
        return Ok(None);
    }
    let places = shards.places(alloc)?;
    let job = Job {
        lot,
        sheet,
        books,
        transmissions,
    };
    let ended = run_all(rt, alloc, gate, &job, places)?;
    prove!(books.period() == sheet.period());
    Ok(Some(Ran { shards, ended }))
}

// What each shard leaves, whose records go by a thread of its own.
fn run_all<R: Threads + Sync, G: Gate + Sync>(
    rt: &R,
    alloc: Global,
    gate: &G,
    job: &Job<'_>,
    places: Vec<Vec<usize>>,
) -> Result<Vec<Ended>, Memory>
    requires job { IsJob job.now }
    requires places { All (λ list. ArePlaces job.now list.items) places.items }
    ensures one_each { IfOk result (λ ended. length ended.items ≡ length places.items) }
    ensures each { IfOk result (λ all. (k : ℕ) (end : EndedValue) → slice_get all.items k ≡ Some end
        → HasRun job.now (list_at (map (λ list. list.items) places.items) k) end) }
{
    let results = run_each(rt, gate, alloc, job, places)?;
    all_ended(alloc, results)
}

// The result of each shard, in order.
fn run_each<R: Threads + Sync, G: Gate + Sync>(
    rt: &R,
    gate: &G,
    alloc: Global,
    job: &Job<'_>,
    places: Vec<Vec<usize>>,
) -> Result<Vec<Result<Ended, Memory>>, AllocError>
    requires job { IsJob job.now }
    requires places { All (λ list. ArePlaces job.now list.items) places.items }
    ensures len { IfOk result (λ results. length results.items ≡ length places.items) }
    ensures each { IfOk result (λ results. (k : ℕ) (d : _) (e : _) → k < length places.items
        → IfOk (slice_index_or results.items k e) (HasRun job.now (slice_index_or places.items k d).items)) }
{
    thread::map_vec(
        rt,
        places,
        &|list: Vec<usize>| -> Result<Ended, Memory>
            requires { IsJob job.now × ArePlaces job.now list.items }
            ensures { IfOk result (HasRun job.entry.now list.items) }
        { run_shard(gate, alloc, job, &list) },
    )
}

// What all shards leave, where each has run.
fn all_ended(alloc: Global, results: Vec<Result<Ended, Memory>>) -> Result<Vec<Ended>, Memory>
    ensures { IfOk result (λ ended. results.items ≡ map Ok ended.items) }
{
    let mut ended = Vec::with_capacity(alloc, results.len())?;
    for result in results {
        ended.push(result?)?;
    }
    Ok(ended)
}
