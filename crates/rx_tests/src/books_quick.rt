// What no clause says: that good texts are read, whatever the cuts.
use rx_books_scan::{Lists, read_lists, read_lists_in_parts};
use rx_books_text::{one_reading, read_printed};
use rx_ledger::Row;
use std::alloc::Global;
use std::process::Abort;
use std::thread::Threads;

// Two families, and a claim of each.
const BOOKS: &[u8] = b"BOOKS|3|20260101|20261231\n\
M|C100|01|20260101|20261231|10000\n\
M|C100|02|20260101|20261231|0\n\
M|C200|01|20260101|20261231|0\n\
C|1234567893|123|20260228|C100|01|00002000202|30000|30|30000|175|10000|3000|0|000004200000011\n\
C|1234567893|124|20260301|C200|01|00002000202|30000|30|30000|175|10000|3000|0|000004200000021\n\
T|C100|13000|10000\n\
T|C200|13000|10000\n";

// Books without a line of a kind, and of an older version.
const OTHERS: [&[u8]; 3] = [
    b"BOOKS|3|20260101|20261231\n",
    b"BOOKS|3|20260101|20261231\nM|C100|01|20260101|20261231|0\nT|C100|0|0\n",
    b"BOOKS|1|20260101|20261231\nM|C100|01|20260101|20261231|0\n\
C|1234567893|90|20251230|C100|01|00002000202|30000|30|30000|175|10000|3000|000003100000051\n\
T|C100|5\n",
];

// The claims in one list.
fn rows(rt: &impl Abort, alloc: Global, lists: &Lists) -> Vec<Row> {
    let mut rows = Vec::new(alloc);
    for run in lists.rows.runs() {
        rows.extend_from_slice(run).expect(rt, "memory");
    }
    rows
}

// Whether the lists are those that the exact reader finds.
fn are_exact(rt: &impl Abort, alloc: Global, text: &[u8], lists: &Lists) -> bool {
    let printed = read_printed(alloc, text).expect(rt, "books");
    lists.head == printed.head()
        && lists.members.as_slice() == printed.ledger().members()
        && lists.deductibles.as_slice() == printed.deductibles()
        && rows(rt, alloc, lists).as_slice() == printed.ledger().rows()
        && lists.totals.as_slice() == printed.totals()
}

// The lists are there, and those that the exact reader finds.
fn is_exact(rt: &impl Abort, alloc: Global, text: &[u8], lists: Option<Lists>) {
    let lists = lists.expect(rt, "lists");
    assert!(rt; are_exact(rt, alloc, text, &lists));
}

// The text is read in this many parts as the exact reader reads it.
fn is_read<R: Threads + Sync + Abort>(rt: &R, alloc: Global, parts: usize, text: &[u8]) {
    is_exact(rt, alloc, text, read_lists_in_parts(rt, alloc, parts, text));
}

#[test]
fn reads_in_one_part(rt: HostRuntime) {
    one_reading();
    is_exact(&rt, rt.alloc(), BOOKS, read_lists(rt.alloc(), BOOKS));
    for text in OTHERS {
        is_exact(&rt, rt.alloc(), text, read_lists(rt.alloc(), text));
    }
}

// The more parts there are, the more of the places at which a text can be cut.
#[test]
fn reads_alike_in_any_parts(rt: HostRuntime) {
    for parts in 1..BOOKS.len() {
        is_read(&rt, rt.alloc(), parts, BOOKS);
    }
}
