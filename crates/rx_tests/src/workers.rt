// What no clause says: that records go in parallel, each once, and that a run ends where a thread is refused. Cases are those
// of tests/cases/README.md.
ghost use Rattle.std.specs.Prelude.{◌≡◌, ◌≤◌, length};

use crate::gates::{Holds, Passed, Without};
use crate::one_billing::BOOKS;
use crate::run_one::claim;
use crate::same::same;
use crate::worked::{books, id, lot, plain_sheet};
use rx_books_store::Books;
use rx_d0_values::{Answer, Outcome, Transmission};
use rx_ledger::Sheet;
use rx_wave::{Finished, Gate, NoGate, RunFault, run_waves};
use std::alloc::Global;
use std::process::Abort;
use std::sync::Wait;
use std::thread::Threads;

// Two records that share nothing.
fn two_records(rt: &impl Abort, alloc: Global) -> [Transmission; 2] {
    [
        claim(rt, alloc, 123, b"C100"),
        claim(rt, alloc, 124, b"C200"),
    ]
}

// A fill for each family, and a refill of each on the same day, which is too soon.
fn four_records(rt: &impl Abort, alloc: Global) -> [Transmission; 4] {
    [
        claim(rt, alloc, 123, b"C100"),
        claim(rt, alloc, 124, b"C200"),
        claim(rt, alloc, 125, b"C200"),
        claim(rt, alloc, 126, b"C100"),
    ]
}

// What is answered on the opening books.
fn run<R: Threads + Wait + Sync + Abort, G: Gate + Sync>(
    rt: &R,
    alloc: Global,
    gate: &G,
    workers: u16,
    asked: &[Transmission],
) -> Result<Finished, RunFault> {
    let sheet = plain_sheet(rt, alloc);
    let books = books(rt, alloc, BOOKS);
    is_a_job(rt, &sheet, &books, asked);
    run_waves(rt, alloc, gate, workers, lot(rt, 42), &sheet, &books, asked)
}

// Books and sheet have one period, and the records are no more than a batch has.
fn is_a_job(rt: &impl Abort, sheet: &Sheet, books: &Books, asked: &[Transmission])
    ensures period { books.now.period ≡ sheet.now.figures.period }
    ensures few { length asked.now ≤ 100_000 }
{
    assert!(rt; books.period() == sheet.period(), "one period");
    assert!(rt; asked.len() <= 100_000, "a batch");
}

// The records are answered, and each billed once.
fn is_right<R: Threads + Wait + Sync + Abort, G: Gate + Sync>(
    rt: &R,
    alloc: Global,
    gate: &G,
    workers: u16,
    asked: &[Transmission],
) {
    let finished = run(rt, alloc, gate, workers, asked).expect(rt, "an answer");
    is_billed_once(rt, &finished);
}

// The fault that the records are answered, if it is one.
fn fault<R: Threads + Wait + Sync + Abort, G: Gate + Sync>(
    rt: &R,
    alloc: Global,
    gate: &G,
    workers: u16,
    asked: &[Transmission],
) -> Option<RunFault> {
    run(rt, alloc, gate, workers, asked).err()
}

// The status of the record's first answer, as a reply writes it; a blank if there is none.
fn status(finished: &Finished, at: usize) -> u8 {
    let Some(reply) = finished.replies.get(at) else {
        return b' ';
    };
    let Outcome::Heard(answers) = &reply.outcome else {
        return b' ';
    };
    match answers.as_slice().first() {
        Some(Answer::Paid(_)) => b'P',
        Some(Answer::Twice(_)) => b'D',
        Some(Answer::Approved(_)) => b'A',
        Some(Answer::Refused(_)) => b'R',
        None => b' ',
    }
}

// The first two records are paid, each family has one-billing's share of 13000, and any further one is refused.
fn is_billed_once(rt: &impl Abort, finished: &Finished) {
    same(rt, (status(finished, 0), status(finished, 1)), (b'P', b'P'));
    if finished.replies.len() != 2 {
        same(rt, (status(finished, 2), status(finished, 3)), (b'R', b'R'));
    }
    for family in &[b"C100", b"C200"] {
        same(
            rt,
            finished.books.out_of_pocket(&id(rt, *family)),
            Some(13_000),
        );
    }
}

// The records are answered where the gate holds them up so, and each place is passed once.
fn goes_well<R: Threads + Wait + Sync + Abort>(
    rt: &R,
    alloc: Global,
    workers: u16,
    holds: Holds,
    asked: &[Transmission],
) {
    let gate = Passed::new(rt, alloc, holds, asked.len());
    is_right(rt, alloc, &gate, workers, asked);
    same(rt, gate.is_once(), true);
}

// The records are answered in shards, where the gate holds them up so, and each place is passed once.
fn goes_well_in_shards<R: Threads + Wait + Sync + Abort>(
    rt: &R,
    alloc: Global,
    workers: u16,
    holds: Holds,
    asked: &[Transmission],
) {
    let gate = Passed::in_shards(rt, alloc, holds, asked.len());
    is_right(rt, alloc, &gate, workers, asked);
    same(rt, gate.is_once(), true);
}

// Two records that share nothing are out at once at a gate that has no desk: each waits there for the other.
#[test]
fn shards_go_side_by_side(rt: HostRuntime) {
    let asked = two_records(&rt, rt.alloc());
    for &workers in &[2, 3, 64] {
        goes_well_in_shards(&rt, rt.alloc(), workers, Holds::Both(2), &asked);
    }
}

#[test]
fn each_place_of_a_shard_is_passed_once(rt: HostRuntime) {
    let asked = four_records(&rt, rt.alloc());
    for &workers in &[1, 2, 3, 64] {
        goes_well_in_shards(&rt, rt.alloc(), workers, Holds::Nobody, &asked);
    }
}

#[test]
fn a_record_goes_beside_one_that_is_held(rt: HostRuntime) {
    let asked = two_records(&rt, rt.alloc());
    goes_well(&rt, rt.alloc(), 2, Holds::First, &asked);
}

#[test]
fn two_records_are_out_at_once(rt: HostRuntime) {
    let asked = two_records(&rt, rt.alloc());
    for &workers in &[2, 3, 64] {
        goes_well(&rt, rt.alloc(), workers, Holds::Both(2), &asked);
    }
}

#[test]
fn each_place_is_passed_once(rt: HostRuntime) {
    let asked = four_records(&rt, rt.alloc());
    for &workers in &[1, 2, 3, 64] {
        goes_well(&rt, rt.alloc(), workers, Holds::Nobody, &asked);
    }
}

// Each of four workers refused in turn, the second of two, and the one that is no thread.
#[test]
fn a_refused_start_is_thread(rt: HostRuntime) {
    let alloc = rt.alloc();
    let asked = four_records(&rt, alloc);
    for &(worker, workers) in &[(1, 4), (2, 4), (3, 4), (4, 4), (2, 2)] {
        let fault = fault(&rt, alloc, &Without(worker), workers, &asked);
        same(&rt, fault, Some(RunFault::Thread));
    }
    for &(worker, workers) in &[(1, 1), (2, 1), (5, 4)] {
        is_right(&rt, alloc, &Without(worker), workers, &asked);
    }
    // A batch without records, too.
    let fault = fault(&rt, alloc, &Without(2), 2, &[]);
    same(&rt, fault, Some(RunFault::Thread));
}

#[test]
fn a_gate_that_does_nothing_starts_every_worker(rt: HostRuntime) {
    let asked = two_records(&rt, rt.alloc());
    for &workers in &[2, 4, 64] {
        is_right(&rt, rt.alloc(), &NoGate, workers, &asked);
    }
}
