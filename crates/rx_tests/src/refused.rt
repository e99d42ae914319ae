//! What `tests/refused_desk.py` runs while a request for memory is refused: a desk, which stays as it was and succeeds when it is
//! asked once more, and runs that are refused before anything is allocated. Where the test's own lists are refused, it ends with
//! the word memory.

use crate::desk::fills;
use crate::one_billing::{BATCH, BOOKS, SHEET, STAMP};
use crate::same::same;
use crate::worked::{bill, books, lot, plain_sheet, today};
use rx_adjudicate::{Done, Order, adjudicate};
use rx_d0_values::Transmission;
use rx_desk::{Desk, Finished, Next};
use rx_fields::Memory;
use rx_switch::{Job, NoGate, SwitchFault, run};
use std::alloc::Global;
use std::process::Abort;
use std::sync::Wait;
use std::thread::Threads;

// The end books of three-fills-reach-the-family-maximum with the base claim of another family, whose record can be out with
// the others.
const END_BOOKS: &[u8] = b"BOOKS|3|20260101|20261231
M|C100|01|20260101|20261231|10000
M|C100|02|20260101|20261231|10000
M|C100|03|20260101|20261231|4000
M|C200|01|20260101|20261231|10000
C|1234567893|201|20260228|C100|01|00002000202|30000|30|30000|175|10000|3000|0|000004200000011
C|1234567893|202|20260228|C100|02|00002000202|30000|30|30000|175|10000|3000|0|000004200000021
C|1234567893|203|20260228|C100|03|00002000202|30000|30|30000|175|4000|0|0|000004200000031
C|1234567893|204|20260228|C200|01|00002000202|30000|30|30000|175|10000|3000|0|000004200000041
T|C100|30000|24000
T|C200|13000|10000
";

fn records(rt: &impl Abort, alloc: Global) -> Vec<Transmission> {
    let mut records = fills(rt, alloc);
    let other = bill(rt, 204, b"C200", b"01", b"00002000202");
    records
        .push(today(rt, alloc, &[other]))
        .expect(rt, "memory");
    records
}

fn made(rt: &impl Abort, alloc: Global) -> Result<Desk, Memory> {
    let (sheet, books, records) = (
        plain_sheet(rt, alloc),
        books(rt, alloc, BOOKS),
        records(rt, alloc),
    );
    assert!(rt; books.period() == sheet.period(), "one period");
    assert!(rt; records.len() == 4, "four records");
    Desk::new(alloc, lot(rt, 42), &sheet, books, records)
}

// The desk; where it is refused memory it is made once more.
fn desk(rt: &impl Abort, alloc: Global) -> Desk {
    match made(rt, alloc) {
        Ok(desk) => desk,
        Err(Memory) => made(rt, alloc).expect(rt, "a desk at last"),
    }
}

// What comes next; where the desk is refused memory it is as before, and asked once more.
fn next(rt: &impl Abort, desk: &mut Desk) -> Next {
    let (is_ready, events) = (desk.is_ready(), desk.history().len());
    match desk.next() {
        Next::Memory => {
            same(rt, desk.is_ready(), is_ready);
            same(rt, desk.history().len(), events);
            desk.next()
        }
        next => next,
    }
}

// The order adjudicated; where that is refused memory the order comes back, and is adjudicated once more.
fn done(rt: &impl Abort, alloc: Global, order: Order) -> Done {
    match adjudicate(alloc, order) {
        Ok(done) => done,
        Err((order, Memory)) => adjudicate(alloc, order).ok().expect(rt, "done at last"),
    }
}

// The first order that is out goes back; false where none is out.
fn goes_back(rt: &impl Abort, alloc: Global, desk: &mut Desk, out: &mut Vec<Order>) -> bool {
    if out.is_empty() {
        return false;
    }
    let done = done(rt, alloc, out.remove(0));
    desk.give(done).ok().expect(rt, "taken back");
    true
}

// Records go out, as many as can be out together, and back again, until all were.
fn goes_on(rt: &impl Abort, alloc: Global, desk: &mut Desk) {
    let mut out: Vec<Order> = Vec::new(alloc);
    for _ in 0..16 {
        match next(rt, desk) {
            Next::Order(order) => out.push(order).expect(rt, "memory"),
            Next::Later => assert!(rt; goes_back(rt, alloc, desk, &mut out), "one is out"),
            Next::Over => {
                if !goes_back(rt, alloc, desk, &mut out) {
                    break;
                }
            }
            Next::Memory => panic!(rt; "refused twice"),
        }
    }
    drop(out);
}

fn finished(rt: &impl Abort, alloc: Global) -> Finished {
    let mut desk = desk(rt, alloc);
    goes_on(rt, alloc, &mut desk);
    desk.close().ok().expect(rt, "an end")
}

#[test]
fn a_desk_goes_on(rt: HostRuntime) {
    let finished = finished(&rt, rt.alloc());
    same(&rt, finished.replies.len(), 4);
    let text = finished.books.write(rt.alloc()).expect(&rt, "memory");
    same(&rt, text.as_slice(), END_BOOKS);
    drop(finished);
}

// Why one-billing is refused with these workers and this stamp.
fn refused<R: Threads + Wait + Sync>(
    rt: &R,
    alloc: Global,
    workers: u16,
    stamp: &[u8],
) -> Option<SwitchFault> {
    let job = Job {
        sheet: SHEET,
        books: BOOKS,
        batch: BATCH,
        stamp,
        workers,
        plain: false,
    };
    run(rt, alloc, &NoGate, &job).err()
}

#[test]
fn a_run_is_refused_before_memory(rt: HostRuntime) {
    let (workers, stamp) = (Some(SwitchFault::Workers), Some(SwitchFault::Stamp));
    same(&rt, refused(&rt, rt.alloc(), 0, STAMP), workers);
    same(&rt, refused(&rt, rt.alloc(), 1, b"202602300600"), stamp);
}
