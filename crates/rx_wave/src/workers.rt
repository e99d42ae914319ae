ghost use Rattle.std.specs.Prelude.{◌≡◌, ◌<◌, ◌≤◌, ◌↔◌, Err, IfOk, IfSome, IsTrue, false, length};
ghost use Rattle.rx_fields.specs.declared.limits.TheConstants.{MOST_DETAILS};
ghost use Rattle.rx_ledger.specs.Fold.{fold_ledger, fold_replies};
ghost use Rattle.rx_wave.specs.Jobs.{IsFinished, IsJob};
ghost use Rattle.rx_wave.specs.Workers.{RefusesOne, are_workers};

use crate::counter::{Counter, DeskCounter, Turn};
use crate::gate::Gate;
use crate::in_order::run_one;
use crate::job::Job;
use crate::run_fault::RunFault;
use crate::spread::run_in_shards;
use rx_adjudicate::{Done, Order, adjudicate};
use rx_books_store::Books;
use rx_d0_values::{Transmission, copies};
use rx_desk::Desk;
use rx_fields::{Lot, MOST_WORKERS, Memory};
use rx_ledger::Sheet;
use rx_serial::Finished;
use std::alloc::Global;
use std::hint::spin_loop;
use std::sync::{Condvar, Mutex, MutexGuard, Wait};
use std::thread;
use std::thread::Threads;

// How often a thread tries to take the lock before it sleeps, and how many pauses go by from one try to the next. Four
// workers at 10 us a record took 389 to 571 ms without a try, 269 to 388 with 64, 246 to 300 with 256 and 222 to 312 with
// 1,000; at 30 us and more the number makes no difference (bench/README.md, "Workers at a gate").
const TRIES: u32 = 256;

const PAUSES: u32 = 4;

/// Adjudicates a batch with this many workers: the books after its records, and a reply to each, as if they had been
/// adjudicated one after another in file order (docs/RULES.md, "Rules of adjudication").
///
/// One worker is `run_one`. At a gate that holds records up more of them share a desk under one lock, and each adjudicates
/// outside of it, between `enter` and `leave` of the gate. At any other gate each has a shard of the records, which shares no
/// book with another's, and nothing is locked. Where no answer comes of the desk, and where all records are one shard,
/// `run_one` gives it.
///
/// # Errors
///
/// Workers, first of all, where their number isn't 1 to 64; Memory; Thread, only where the gate refuses to start one of
/// two or more workers. Those that were started have ended then.
pub fn run_waves<R: Threads + Wait + Sync, G: Gate + Sync>(
    rt: &R,
    alloc: Global,
    gate: &G,
    workers: u16,
    lot: Lot,
    sheet: &Sheet,
    books: &Books,
    transmissions: &[Transmission],
) -> Result<Finished, RunFault>
    requires period { books.now.period ≡ sheet.now.figures.period }
    requires few { length transmissions.now ≤ MOST_DETAILS }
    ensures books { IfOk result (λ finished. finished.books ≡ record {
      period = sheet.now.figures.period;
      ledger = fold_ledger lot sheet.now 1 transmissions.now books.now.ledger;
    }) }
    ensures replies { IfOk result (λ finished.
        finished.replies.items ≡ fold_replies lot sheet.now 1 transmissions.now books.now.ledger) }
    ensures workers { result ≡ Err RunFault.Workers ↔ are_workers workers ≡ false }
    ensures thread { result ≡ Err RunFault.Thread → RefusesOne (G.starts gate.now) workers }
{
    if workers < 1 || workers > MOST_WORKERS {
        return Err(RunFault::Workers);
    }
    if workers > 1 {
        let job = Job {
            lot,
            sheet,
            books,
            transmissions,
        };
        if let Some(finished) = run_by_several(rt, alloc, gate, workers, &job)? {
            return Ok(finished);
        }
    }
    Ok(run_one(alloc, gate, lot, sheet, books, transmissions)?)
}

// What several workers give: at a gate that holds records up they share a desk, at any other each has a shard. None where
// the records fall into one shard, and where no answer comes of the desk.
fn run_by_several<R: Threads + Wait + Sync, G: Gate + Sync>(
    rt: &R,
    alloc: Global,
    gate: &G,
    workers: u16,
    job: &Job<'_>,
) -> Result<Option<Finished>, RunFault>
    requires several { 2 ≤ workers }
    requires job { IsJob job.now }
    ensures finished { IfOk result (λ answer. IfSome answer (IsFinished job.now)) }
    ensures workers { result ≡ Err RunFault.Workers → ⊥ }
    ensures thread { result ≡ Err RunFault.Thread → RefusesOne (G.starts gate.now) workers }
{
    if gate.holds_up() {
        return run_at_desk(rt, alloc, gate, workers, job);
    }
    if refuses_one(gate, workers as usize) {
        return Err(RunFault::Thread);
    }
    Ok(run_in_shards(rt, alloc, gate, workers, job)?)
}

// What several workers give who share a desk; none where no answer comes of it.
fn run_at_desk<R: Threads + Wait + Sync, G: Gate + Sync>(
    rt: &R,
    alloc: Global,
    gate: &G,
    workers: u16,
    job: &Job<'_>,
) -> Result<Option<Finished>, RunFault>
    requires several { 2 ≤ workers }
    requires job { IsJob job.now }
    ensures finished { IfOk result (λ answer. IfSome answer (IsFinished job.now)) }
    ensures workers { result ≡ Err RunFault.Workers → ⊥ }
    ensures thread { result ≡ Err RunFault.Thread → RefusesOne (G.starts gate.now) workers }
{
    let desk = desk_of(alloc, job)?;
    let desk = worked_off(rt, alloc, gate, workers, desk)?;
    Ok(closed_for(desk, job))
}

// What a desk answers at its end, where it is for this job and all records came back.
fn closed_for(desk: Desk, job: &Job<'_>) -> Option<Finished>
    requires { IsJob job.now }
    ensures { IfSome result (IsFinished job.now) }
{
    if !desk.job_is(job.lot, job.sheet, job.books, job.transmissions) {
        drop(desk);
        return None;
    }
    desk.close().ok()
}

// Whether the gate refuses to start one of this many workers; after one that it refuses it is asked no more.
fn refuses_one<G: Gate>(gate: &G, workers: usize) -> bool
    requires several { 2 ≤ workers }
    requires few { workers < 65_536 }
    ensures { IsTrue result → RefusesOne (G.starts gate.now) workers }
{
    for worker in 1..workers + 1 {
        let starts = gate.start(worker);
        if !starts {
            return true;
        }
    }
    false
}

// A desk of its own copies.
fn desk_of(alloc: Global, job: &Job<'_>) -> Result<Desk, Memory>
    requires job { IsJob job.now }
{
    let books = job.books.copy(alloc, job.sheet.period())?;
    let transmissions = copies(alloc, job.transmissions)?;
    Desk::new(alloc, job.lot, job.sheet, books, transmissions)
}

// The desk, after this many workers took what it issued and gave it back.
fn worked_off<R: Threads + Wait + Sync, G: Gate + Sync>(
    rt: &R,
    alloc: Global,
    gate: &G,
    workers: u16,
    desk: Desk,
) -> Result<Desk, RunFault>
    requires several { 2 ≤ workers }
    ensures workers { result ≡ Err RunFault.Workers → ⊥ }
    ensures thread { result ≡ Err RunFault.Thread → RefusesOne (G.starts gate.now) workers }
{
    let shared = Mutex::new(DeskCounter {
        desk,
        stopped: false,
        lacks_memory: false,
    });
    let changed = Condvar::new();
    let refused = start_all(rt, alloc, gate, workers as usize, &shared, &changed);
    let desk = shared.into_inner().into_desk();
    drop(changed);
    let desk = desk?;
    if refused {
        drop(desk);
        return Err(RunFault::Thread);
    }
    Ok(desk)
}

// Starts the workers and waits until all have ended; true where the gate refused one.
fn start_all<R: Threads + Wait + Sync, G: Gate + Sync, C: Counter + Send>(
    rt: &R,
    alloc: Global,
    gate: &G,
    workers: usize,
    shared: &Mutex<C>,
    changed: &Condvar,
) -> bool
    requires several { 2 ≤ workers }
    requires few { workers < 65_536 }
    ensures { IsTrue result → RefusesOne (G.starts gate.now) workers }
{
    thread::scope(
        thread::scope_env(),
        rt,
        |scope| -> bool
            requires several { 2 ≤ workers }
            requires few { workers < 65_536 }
            ensures { IsTrue result → RefusesOne (G.starts gate.entry.now) workers }
        {
            for worker in 1..workers + 1 {
                if !gate.start(worker) {
                    stop(rt, shared, changed);
                    return true;
                }
                if scope
                    .spawn(move || work(rt, alloc, gate, shared, changed))
                    .is_err()
                {
                    stop(rt, shared, changed);
                    return false;
                }
            }
            false
        },
    )
}

// Has every worker end at its next turn.
fn stop<R: Wait, C: Counter>(rt: &R, shared: &Mutex<C>, changed: &Condvar) {
    shared.lock(rt).stop();
    changed.notify_all();
}

// The work of one thread. Where a record is left that can go, it wakes one of those that wait, which does the same; where
// it ends, it wakes all. Where it waits itself, another has a record out, and goes on after that.
fn work<R: Wait, G: Gate, C: Counter>(
    rt: &R,
    alloc: Global,
    gate: &G,
    shared: &Mutex<C>,
    changed: &Condvar,
) {
    let mut guard = locked(rt, shared);
    let mut remains = None;
    for _ in rt.forever() {
        match guard.turn() {
            Turn::Go { order, wakes } => {
                drop(guard);
                if wakes {
                    changed.notify_one();
                }
                drop(remains);
                let made = made_of(alloc, gate, order);
                guard = locked(rt, shared);
                remains = guard.take_back(made);
            }
            Turn::Wait => guard = changed.wait(rt, guard),
            Turn::End => {
                drop(guard);
                changed.notify_all();
                return;
            }
        }
    }
}

// The lock. It is held for less than a thread takes to sleep and wake, so a while goes by before this one sleeps.
fn locked<'a, R: Wait, C>(rt: &R, shared: &'a Mutex<C>) -> MutexGuard<'a, C> {
    for _ in 0..TRIES {
        if let Some(guard) = shared.try_lock() {
            return guard;
        }
        for _ in 0..PAUSES {
            spin_loop();
        }
    }
    shared.lock(rt)
}

// What is made of an order, between the two calls of the gate.
fn made_of<G: Gate>(alloc: Global, gate: &G, order: Order) -> Result<Done, (Order, Memory)> {
    let place = order.place() as usize;
    gate.enter(place);
    let made = adjudicate(alloc, order);
    gate.leave(place);
    made
}
