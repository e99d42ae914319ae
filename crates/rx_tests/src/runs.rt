//! Whole runs that the worked cases name (tests/cases/README.md), over bytes: blocking-gates and refused-thread, at their gates,
//! and inputs that are too long.

use crate::gates::{Holds, Passed, Without};
use crate::one_billing::{BATCH, BOOKS, END_BOOKS, RESPONSE, SETTLEMENT, SHEET, STAMP};
use crate::same::same;
use crate::texts::{Texts, five_hundred_families, two_claims, with_standing_claims};
use rx_switch::{Gate, Job, NoGate, Output, SwitchFault, run};
use std::alloc::Global;
use std::process::Abort;
use std::sync::Wait;
use std::thread::Threads;

// What a run on these books and this batch gives.
fn ran<R: Threads + Wait + Sync, G: Gate + Sync>(
    rt: &R,
    alloc: Global,
    gate: &G,
    workers: u16,
    books: &[u8],
    batch: &[u8],
) -> Result<Output, SwitchFault> {
    let job = Job {
        sheet: SHEET,
        books,
        batch,
        stamp: STAMP,
        workers,
        plain: false,
    };
    run(rt, alloc, gate, &job)
}

// Why such a run is refused.
fn refused<R: Threads + Wait + Sync, G: Gate + Sync>(
    rt: &R,
    alloc: Global,
    gate: &G,
    workers: u16,
    books: &[u8],
    batch: &[u8],
) -> Option<SwitchFault> {
    ran(rt, alloc, gate, workers, books, batch).err()
}

// The output has these texts: response, end books and settlement.
fn has_texts(rt: &impl Abort, output: &Output, texts: [&[u8]; 3]) {
    let [response, books, settlement] = texts;
    same(rt, output.response.as_slice(), response);
    same(rt, output.books.as_slice(), books);
    same(rt, output.settlement.as_slice(), settlement);
}

// The run gives at this gate what another one gave.
fn gives<R: Threads + Wait + Sync + Abort, G: Gate + Sync>(
    rt: &R,
    alloc: Global,
    gate: &G,
    workers: u16,
    texts: &Texts,
    other: &Output,
) {
    let output = ran(rt, alloc, gate, workers, &texts.books, &texts.batch).expect(rt, "an output");
    let (response, books) = (other.response.as_slice(), other.books.as_slice());
    has_texts(rt, &output, [response, books, other.settlement.as_slice()]);
}

// The run with one worker gives this settlement.
fn of_one_worker<R: Threads + Wait + Sync + Abort>(
    rt: &R,
    alloc: Global,
    texts: &Texts,
    settlement: &[u8],
) -> Output {
    let output = ran(rt, alloc, &NoGate, 1, &texts.books, &texts.batch).expect(rt, "an output");
    same(rt, output.settlement.as_slice(), settlement);
    output
}

// Where the gate holds records up so, the run gives the bytes of one worker, and each place is passed once.
fn goes_well<R: Threads + Wait + Sync + Abort>(
    rt: &R,
    alloc: Global,
    workers: u16,
    gate: &Passed,
    texts: &Texts,
    other: &Output,
) {
    gives(rt, alloc, gate, workers, texts, other);
    same(rt, gate.is_once(), true);
}

// The settlement of the case blocking-gates.
const OF_TWO: &[u8] = b"SETTLE|1|0000042|202603020600
P|1234567893|2|0|0|0|34350
TOTAL|2|0|0|0|34350
";

// The two records of the case on these books: the first held until the second was left, and each until the other was entered.
fn two_go_well<R: Threads + Wait + Sync + Abort>(rt: &R, alloc: Global, books: Vec<u8>) {
    let texts = Texts {
        books,
        batch: two_claims(rt, alloc),
    };
    let other = of_one_worker(rt, alloc, &texts, OF_TWO);
    for &holds in &[Holds::First, Holds::Both(2)] {
        let gate = Passed::new(rt, alloc, holds, 2);
        goes_well(rt, alloc, 2, &gate, &texts, &other);
    }
}

#[test]
fn a_record_passes_one_that_is_held(rt: HostRuntime) {
    let books = BOOKS.to_vec(rt.alloc()).expect(&rt, "memory");
    two_go_well(&rt, rt.alloc(), books);
}

#[test]
fn a_record_passes_one_that_is_held_with_many_claims(rt: HostRuntime) {
    let books = with_standing_claims(&rt, rt.alloc());
    two_go_well(&rt, rt.alloc(), books);
}

// The settlement of the case five-hundred-families.
const OF_A_THOUSAND: &[u8] = b"SETTLE|1|0000042|202603020600
P|1234567893|1000|0|0|0|8587500
TOTAL|1000|0|0|0|8587500
";

#[test]
fn held_records_of_five_hundred_families_meet(rt: HostRuntime) {
    let texts = five_hundred_families(&rt, rt.alloc());
    let other = of_one_worker(&rt, rt.alloc(), &texts, OF_A_THOUSAND);
    for &workers in &[2, 3, 64] {
        let gate = Passed::new(&rt, rt.alloc(), Holds::Both(500), 1_000);
        goes_well(&rt, rt.alloc(), workers, &gate, &texts, &other);
    }
}

#[test]
fn a_refused_worker_of_two_is_thread(rt: HostRuntime) {
    let fault = refused(&rt, rt.alloc(), &Without(2), 2, BOOKS, BATCH);
    same(&rt, fault, Some(SwitchFault::Thread));
    let output = ran(&rt, rt.alloc(), &NoGate, 2, BOOKS, BATCH).expect(&rt, "an output");
    has_texts(&rt, &output, [RESPONSE, END_BOOKS, SETTLEMENT]);
}

#[test]
fn a_refused_worker_of_four_is_thread(rt: HostRuntime) {
    let texts = five_hundred_families(&rt, rt.alloc());
    for worker in 1..5 {
        let gate = Without(worker);
        let fault = refused(&rt, rt.alloc(), &gate, 4, &texts.books, &texts.batch);
        same(&rt, fault, Some(SwitchFault::Thread));
    }
    let other = of_one_worker(&rt, rt.alloc(), &texts, OF_A_THOUSAND);
    gives(&rt, rt.alloc(), &NoGate, 4, &texts, &other);
}
