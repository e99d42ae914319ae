use crate::same::same;
use rx_books_store::{Books, one_reading};
use rx_ledger::Ledger;
use std::alloc::Global;
use std::process::Abort;

// The end books of case one-billing.
const END: &[u8] = b"BOOKS|3|20260101|20261231
M|C100|01|20260101|20261231|10000
M|C100|02|20260101|20261231|0
M|C100|03|20260101|20261231|0
M|C200|01|20260101|20261231|0
C|1234567893|123|20260228|C100|01|00002000202|30000|30|30000|175|10000|3000|0|000004200000011
T|C100|13000|10000
T|C200|0|0
";

fn read(rt: &impl Abort, alloc: Global) -> Books {
    Books::read(alloc, END).expect(rt, "books")
}

fn ledger_of(rt: &impl Abort, alloc: Global, books: &Books) -> Ledger {
    books.ledger(alloc).expect(rt, "memory")
}

// The books of the ledger of these, in their period.
fn made_again(rt: &impl Abort, alloc: Global, books: &Books) -> Books {
    let ledger = ledger_of(rt, alloc, books);
    Books::from_ledger(alloc, &ledger, books.period()).expect(rt, "memory")
}

// The text of the books is that of the case.
fn is_written(rt: &impl Abort, alloc: Global, books: &Books) {
    let text = books.write(alloc).expect(rt, "memory");
    same(rt, text.as_slice(), END);
}

#[test]
fn books_and_those_of_their_ledger_are_written_as_read(rt: HostRuntime) {
    one_reading();
    let books = read(&rt, rt.alloc());
    is_written(&rt, rt.alloc(), &books);
    is_written(&rt, rt.alloc(), &made_again(&rt, rt.alloc(), &books));
}
