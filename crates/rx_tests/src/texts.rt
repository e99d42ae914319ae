//! Texts of the worked cases (tests/cases/README.md) that are put together from those of one-billing.

use crate::one_billing::{BATCH, BOOKS};
use rx_fields::digits_write;
use std::alloc::Global;
use std::process::Abort;

// The bytes of a batch header.
const HEADER: usize = 75;

// What stands before a detail's family, between that and its reference, between that and the drug, and after the drug.
const TO_FAMILY: &[u8] =
    b"900001D0B1RXDEMO    1011234567893     20260228          \x1e\x1cAM04\x1cC2";

const TO_REFERENCE: &[u8] = b"\x1cC301\x1d\x1e\x1cAM07\x1cEM1\x1cD2";

const TO_DRUG: &[u8] = b"\x1cE103\x1cD7";

const TO_END: &[u8] = b"\x1cE70000030000\x1cD5030\x1cD61\
\x1e\x1cAM11\x1cD90003000{\x1cDC0000017E\x1cDQ0004000{\x03";

const NO_MESSAGE: &[u8] = b"                                   \x03";

// The lines of the opening books that follow the members.
const TOTALS: &[u8] = b"T|C100|0\nT|C200|0\n";

/// Opening books, and a batch.
#[derive(Drop)]
pub(crate) struct Texts {
    pub(crate) books: Vec<u8>,
    pub(crate) batch: Vec<u8>,
}

// Puts these to the end of a text.
fn put(rt: &impl Abort, text: &mut Vec<u8>, parts: &[&[u8]]) {
    for part in parts {
        text.extend_from_slice(part).expect(rt, "memory");
    }
}

// A text that begins with the header of one-billing's batch.
fn begun(rt: &impl Abort, alloc: Global) -> Vec<u8> {
    let header = BATCH.get(..HEADER).expect(rt, "a header");
    header.to_vec(alloc).expect(rt, "memory")
}

// Puts the detail at a place, the base claim with this reference, family, whose parts are these, and drug.
fn put_claim(
    rt: &impl Abort,
    batch: &mut Vec<u8>,
    place: &[u8; 10],
    reference: &[u8; 12],
    family: &[&[u8]],
    drug: &[u8],
) {
    put(rt, batch, &[b"\x02G1", place.as_slice(), TO_FAMILY]);
    put(rt, batch, family);
    put(rt, batch, &[TO_REFERENCE, reference.as_slice()]);
    put(rt, batch, &[TO_DRUG, drug, TO_END]);
}

// Puts the trailer of a batch of this many details.
fn put_trailer(rt: &impl Abort, batch: &mut Vec<u8>, count: &[u8; 10]) {
    put(rt, batch, &[b"\x02990000042", count.as_slice(), NO_MESSAGE]);
}

// Place, reference and family of the records of the case blocking-gates.
const TWO: &[(&[u8; 10], &[u8; 12], &[u8])] = &[
    (b"0000000001", b"000000000123", b"C100"),
    (b"0000000002", b"000000000124", b"C200"),
];

/// The batch of that case.
pub(crate) fn two_claims(rt: &impl Abort, alloc: Global) -> Vec<u8> {
    let mut batch = begun(rt, alloc);
    for &(place, reference, family) in TWO {
        let family = [family];
        put_claim(rt, &mut batch, place, reference, &family, b"00002000202");
    }
    put_trailer(rt, &mut batch, b"0000000002");
    batch
}

// Puts a thousand claims of a family, all of the year before, under reference numbers that begin with a digit.
fn put_standing(rt: &impl Abort, books: &mut Vec<u8>, family: &[u8], first: &[u8]) {
    for number in 0..1000 {
        let digits: [u8; 3] = digits_write(number);
        put(rt, books, &[b"C|1234567893|", first, digits.as_slice()]);
        put(rt, books, &[b"|20251230|", family, b"|01|00002000202|"]);
        put(
            rt,
            books,
            &[b"30000|30|30000|175|10000|3000|000003100000051\n"],
        );
    }
}

/// The opening books, in which each family has a thousand claims.
pub(crate) fn with_standing_claims(rt: &impl Abort, alloc: Global) -> Vec<u8> {
    let members = BOOKS.strip_suffix(TOTALS).expect(rt, "lines of totals");
    let mut books = members.to_vec(alloc).expect(rt, "memory");
    put_standing(rt, &mut books, b"C100", b"1");
    put_standing(rt, &mut books, b"C200", b"2");
    put(rt, &mut books, &[TOTALS]);
    books
}

// The books of the case five-hundred-families.
fn books_of_five_hundred(rt: &impl Abort, alloc: Global) -> Vec<u8> {
    let mut books = b"BOOKS|1|20260101|20261231\n"
        .to_vec(alloc)
        .expect(rt, "memory");
    for number in 1..501 {
        let digits: [u8; 3] = digits_write(number);
        put(rt, &mut books, &[b"M|F", digits.as_slice()]);
        put(rt, &mut books, &[b"|01|20260101|20261231|0\n"]);
    }
    for number in 1..501 {
        let digits: [u8; 3] = digits_write(number);
        put(rt, &mut books, &[b"T|F", digits.as_slice(), b"|0\n"]);
    }
    books
}

// The drug of a record of the case.
fn drug_of(place: u64) -> &'static [u8] {
    if place <= 500 {
        b"00002000202"
    } else {
        b"00001000101"
    }
}

// The batch of the case.
fn batch_of_a_thousand(rt: &impl Abort, alloc: Global) -> Vec<u8> {
    let mut batch = begun(rt, alloc);
    for number in 1..1001 {
        let place: [u8; 10] = digits_write(number);
        let reference: [u8; 12] = digits_write(number);
        let family: [u8; 3] = digits_write(7 * number % 500 + 1);
        put_claim(
            rt,
            &mut batch,
            &place,
            &reference,
            &[b"F", family.as_slice()],
            drug_of(number),
        );
    }
    put_trailer(rt, &mut batch, b"0000001000");
    batch
}

/// The books and the batch of the case five-hundred-families.
pub(crate) fn five_hundred_families(rt: &impl Abort, alloc: Global) -> Texts {
    Texts {
        books: books_of_five_hundred(rt, alloc),
        batch: batch_of_a_thousand(rt, alloc),
    }
}
