// The case desk-by-hand: three fills that reach the family maximum, from an order to the next by hand.
use crate::one_billing::BOOKS;
use crate::same::same;
use crate::worked::{bare_sheet, bill, books, lot, plain_sheet, today};
use rx_adjudicate::{Done, Order, adjudicate};
use rx_books_store::Books;
use rx_d0_values::Transmission;
use rx_desk::{Desk, Event, Finished, Next};
use rx_fields::Lot;
use rx_ledger::Sheet;
use std::alloc::Global;
use std::process::Abort;

// The opening books, where a person is covered to an earlier day.
const SHORTER: &[u8] = b"BOOKS|3|20260101|20261231
M|C100|01|20260101|20261130|0
M|C100|02|20260101|20261231|0
M|C100|03|20260101|20261231|0
M|C200|01|20260101|20261231|0
T|C100|0|0
T|C200|0|0
";

// Puts a fill for a person of a family to the others.
fn put(
    rt: &impl Abort,
    alloc: Global,
    fills: &mut Vec<Transmission>,
    number: u64,
    family: &[u8],
    code: &[u8],
) {
    let bill = bill(rt, number, family, code, b"00002000202");
    fills.push(today(rt, alloc, &[bill])).expect(rt, "memory");
}

/// The fills of the case.
pub(crate) fn fills(rt: &impl Abort, alloc: Global) -> Vec<Transmission> {
    let mut fills = Vec::new(alloc);
    put(rt, alloc, &mut fills, 201, b"C100", b"01");
    put(rt, alloc, &mut fills, 202, b"C100", b"02");
    put(rt, alloc, &mut fills, 203, b"C100", b"03");
    fills
}

// The desk of the case, over the books of a text.
fn desk(rt: &impl Abort, alloc: Global, text: &[u8]) -> Desk {
    let books = books(rt, alloc, text);
    desk_of(rt, alloc, books, fills(rt, alloc))
}

// A desk of these books and records, under the plain sheet.
fn desk_of(rt: &impl Abort, alloc: Global, books: Books, records: Vec<Transmission>) -> Desk {
    let (lot, sheet) = (lot(rt, 42), plain_sheet(rt, alloc));
    assert!(rt; records.len() <= 100_000, "a batch");
    assert!(rt; books.period() == sheet.period(), "one period");
    Desk::new(alloc, lot, &sheet, books, records).expect(rt, "memory")
}

// The order that comes next.
fn order(rt: &impl Abort, desk: &mut Desk) -> Order {
    match desk.next() {
        Next::Order(order) => order,
        Next::Later | Next::Over | Next::Memory => panic!(rt; "an order"),
    }
}

fn done(rt: &impl Abort, alloc: Global, order: Order) -> Done {
    adjudicate(alloc, order).ok().expect(rt, "memory")
}

fn give(rt: &impl Abort, desk: &mut Desk, done: Done) {
    desk.give(done).ok().expect(rt, "taken back");
}

// The record at the place goes out, and no other is ready next to it.
fn only_order(rt: &impl Abort, desk: &mut Desk, place: u64) -> Order {
    same(rt, desk.is_ready(), true);
    let order = order(rt, desk);
    same(rt, order.place(), place);
    same(rt, desk.is_ready(), false);
    order
}

// What the desk issues, in a word.
fn next_word(desk: &mut Desk) -> &'static str {
    word(&desk.next())
}

fn word(next: &Next) -> &'static str {
    match next {
        Next::Order(_) => "order",
        Next::Later => "later",
        Next::Over => "over",
        Next::Memory => "memory",
    }
}

// The record at the place goes out, and no other next to it, of which the desk says this; it comes in again.
fn goes_alone(rt: &impl Abort, desk: &mut Desk, alloc: Global, place: u64, beside: &'static str) {
    let order = only_order(rt, desk, place);
    same(rt, next_word(desk), beside);
    give(rt, desk, done(rt, alloc, order));
}

// The records of the case go one after another, each by itself.
fn go_alone(rt: &impl Abort, alloc: Global, desk: &mut Desk) {
    for &(place, beside) in &[(1, "later"), (2, "later"), (3, "over")] {
        goes_alone(rt, desk, alloc, place, beside);
    }
}

const ONE_AFTER_ANOTHER: &[Event] = &[
    Event::Take(1),
    Event::Give(1),
    Event::Take(2),
    Event::Give(2),
    Event::Take(3),
    Event::Give(3),
];

// These events were.
fn went(rt: &impl Abort, desk: &Desk, history: &[Event]) {
    same(rt, desk.history(), history);
}

// The next record goes out, and comes in again.
fn goes(rt: &impl Abort, alloc: Global, desk: &mut Desk) {
    let order = order(rt, desk);
    give(rt, desk, done(rt, alloc, order));
}

// Whether the desk is at its end.
fn is_closed(desk: Desk) -> bool {
    let finished = desk.close().ok();
    finished.is_some()
}

fn closed(rt: &impl Abort, desk: Desk) -> Finished {
    desk.close().ok().expect(rt, "an end")
}

// What the desk of the case ends with.
fn finished(rt: &impl Abort, alloc: Global) -> Finished {
    let mut desk = desk(rt, alloc, BOOKS);
    for _ in 0..3 {
        goes(rt, alloc, &mut desk);
    }
    closed(rt, desk)
}

#[test]
fn sharers_go_one_after_another(rt: HostRuntime) {
    let mut desk = desk(&rt, rt.alloc(), BOOKS);
    go_alone(&rt, rt.alloc(), &mut desk);
    went(&rt, &desk, ONE_AFTER_ANOTHER);
    same(&rt, next_word(&mut desk), "over");
    drop(desk);
}

// The end books of the case.
const END_BOOKS: &[u8] = b"BOOKS|3|20260101|20261231
M|C100|01|20260101|20261231|10000
M|C100|02|20260101|20261231|10000
M|C100|03|20260101|20261231|4000
M|C200|01|20260101|20261231|0
C|1234567893|201|20260228|C100|01|00002000202|30000|30|30000|175|10000|3000|0|000004200000011
C|1234567893|202|20260228|C100|02|00002000202|30000|30|30000|175|10000|3000|0|000004200000021
C|1234567893|203|20260228|C100|03|00002000202|30000|30|30000|175|4000|0|0|000004200000031
T|C100|30000|24000
T|C200|0|0
";

#[test]
fn ends_with_the_books_of_the_case(rt: HostRuntime) {
    let finished = finished(&rt, rt.alloc());
    let text = finished.books.write(rt.alloc()).expect(&rt, "memory");
    same(&rt, text.as_slice(), END_BOOKS);
    drop(finished);
}

// The first record of a desk over the books of a text, done.
fn first_done(rt: &impl Abort, alloc: Global, text: &[u8]) -> Done {
    let mut desk = desk(rt, alloc, text);
    let order = order(rt, &mut desk);
    drop(desk);
    done(rt, alloc, order)
}

// A desk whose first record is out, and won't come back.
fn with_one_out(rt: &impl Abort, alloc: Global) -> Desk {
    let mut desk = desk(rt, alloc, BOOKS);
    let _out = order(rt, &mut desk);
    desk
}

// Whether what is done comes back.
fn turns_away(desk: &mut Desk, done: Done) -> bool {
    let taken = desk.give(done).ok();
    taken.is_none()
}

#[test]
fn turns_away_a_done_over_other_books(rt: HostRuntime) {
    let stranger = first_done(&rt, rt.alloc(), SHORTER);
    let mut desk = with_one_out(&rt, rt.alloc());
    same(&rt, turns_away(&mut desk, stranger), true);
    went(&rt, &desk, &[Event::Take(1)]);
    drop(desk);
}

#[test]
fn comes_back_while_a_record_is_left(rt: HostRuntime) {
    let desk = with_one_out(&rt, rt.alloc());
    same(&rt, is_closed(desk), false);
}

// What is asked of the desk of the case: the batch number, the drugs that the sheet lists, the text of the books, and how
// many records.
#[derive(Clone, Copy)]
struct Asked {
    batch: u32,
    drugs: usize,
    books: &'static [u8],
    records: usize,
}

const OWN: Asked = Asked {
    batch: 42,
    drugs: 3,
    books: BOOKS,
    records: 3,
};

fn asked_sheet(rt: &impl Abort, alloc: Global, drugs: usize) -> Sheet {
    match drugs {
        0 => bare_sheet(rt, alloc),
        _ => plain_sheet(rt, alloc),
    }
}

fn asked_records(rt: &impl Abort, alloc: Global, count: usize) -> Vec<Transmission> {
    let mut records = fills(rt, alloc);
    records.truncate(count);
    records
}

// What a desk is asked for.
#[derive(Drop)]
struct Job {
    lot: Lot,
    sheet: Sheet,
    books: Books,
    records: Vec<Transmission>,
}

fn asked_job(rt: &impl Abort, alloc: Global, asked: Asked) -> Job {
    Job {
        lot: lot(rt, asked.batch),
        sheet: asked_sheet(rt, alloc, asked.drugs),
        books: books(rt, alloc, asked.books),
        records: asked_records(rt, alloc, asked.records),
    }
}

// Whether the desk of the case is for this job.
fn is_job(rt: &impl Abort, alloc: Global, job: &Job) -> bool {
    let desk = desk(rt, alloc, BOOKS);
    let is_job = desk.job_is(job.lot, &job.sheet, &job.books, &job.records);
    drop(desk);
    is_job
}

fn is_for(rt: &impl Abort, alloc: Global, asked: Asked) -> bool {
    let job = asked_job(rt, alloc, asked);
    is_job(rt, alloc, &job)
}

#[test]
fn knows_its_job(rt: HostRuntime) {
    let alloc = rt.alloc();
    let books = SHORTER;
    same(&rt, is_for(&rt, alloc, OWN), true);
    same(&rt, is_for(&rt, alloc, Asked { batch: 43, ..OWN }), false);
    same(&rt, is_for(&rt, alloc, Asked { drugs: 0, ..OWN }), false);
    same(&rt, is_for(&rt, alloc, Asked { books, ..OWN }), false);
    same(&rt, is_for(&rt, alloc, Asked { records: 2, ..OWN }), false);
}
