// What no clause says: that books are read and written alike, whatever the parts.
use crate::same::same;
use rx_books_store::Books;
use std::alloc::Global;
use std::process::Abort;
use std::thread::Threads;

// The most parts that a text is cut into here.
const MOST: usize = 12;

// The books after two billings, in version 3.
const BOOKS: &[u8] = b"BOOKS|3|20260101|20261231\n\
M|C100|01|20260101|20261231|10000\n\
M|C100|02|20260101|20261231|0\n\
M|C200|01|20260101|20261231|10000\n\
C|1234567893|123|20260228|C100|01|00002000202|30000|30|30000|175|10000|3000|0|000004200000011\n\
C|1234567893|124|20260301|C200|01|00002000202|30000|30|30000|175|10000|3000|0|000004200000021\n\
T|C100|13000|10000\n\
T|C200|13000|10000\n";

// What is written of the books, read and written in this many parts.
fn rewritten<R: Threads + Sync + Abort>(rt: &R, alloc: Global, parts: usize) -> Vec<u8> {
    let books = Books::read_in_parts(rt, alloc, parts, BOOKS).expect(rt, "books");
    let pieces = books.write_pieces(rt, alloc, parts).expect(rt, "memory");
    pieces.joined(alloc).expect(rt, "memory")
}

#[test]
fn claims_are_rewritten_in_any_parts(rt: HostRuntime) {
    for parts in 1..MOST {
        same(&rt, rewritten(&rt, rt.alloc(), parts).as_slice(), BOOKS);
    }
}
