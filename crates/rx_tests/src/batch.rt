use crate::table::same;
use rx_batch::{
    Batch, BatchFault, Detail, FileType, Head, Kind, Pieces, one_reading, read_batch, write_batch,
};
use rx_fields::{Lot, Time, date_read};
use std::alloc::Global;
use std::process::Abort;

const HEADER: &[u8] =
    b"\x0200TPHARMSYS                0000042202603010930P12RXSWITCH                \x03";

const CLAIM: &[u8] = b"900001D0B1RXDEMO    1011234567893     20260228          \
\x1e\x1cAM04\x1cC2C100\x1cC301\
\x1d\x1e\x1cAM07\x1cEM1\x1cD2000000000123\x1cE103\x1cD700002000202\x1cE70000030000\x1cD5030\x1cD61\
\x1e\x1cAM11\x1cD90003000{\x1cDC0000017E\x1cDQ0004000{";

const TRAILER: &[u8] = b"\x029900000420000000001                                   \x03";

// The parts of the file of one billing.
const ONE_BILLING: &[&[u8]] = &[HEADER, b"\x02G10000000001", CLAIM, b"\x03", TRAILER];

fn joined(rt: &impl Abort, alloc: Global, parts: &[&[u8]]) -> Vec<u8> {
    let mut text = Vec::new(alloc);
    for part in parts {
        text.extend_from_slice(part).expect(rt, "memory");
    }
    text
}

// The file of one billing, of 326 bytes.
fn one_billing(rt: &impl Abort, alloc: Global) -> Vec<u8> {
    joined(rt, alloc, ONE_BILLING)
}

// A file with another byte at one place.
fn changed(rt: &impl Abort, alloc: Global, file: &[u8], at: usize, byte: u8) -> Vec<u8> {
    let mut copy = Vec::from_slice(alloc, file).expect(rt, "memory");
    if let Some(there) = copy.get_mut(at) {
        *there = byte;
    }
    copy
}

// The fault's number and place, or 0 and the number of details.
fn told_of(outcome: &Result<Batch, BatchFault>) -> (u32, u64) {
    match outcome {
        Ok(batch) => (0, batch.details.len() as u64),
        Err(fault) => (fault.code(), fault.place().unwrap_or(0)),
    }
}

// What is said of a file.
fn told(alloc: Global, file: &[u8]) -> (u32, u64) {
    told_of(&read_batch(alloc, file))
}

fn same_details(a: &[Detail], b: &[Detail]) -> bool {
    a.len() == b.len()
        && a.iter().zip(b).all(|(x, y)| x.reference == y.reference
            && x.text.bytes() == y.text.bytes())
}

fn are_alike(a: &Result<Batch, BatchFault>, b: &Result<Batch, BatchFault>) -> bool {
    match (a, b) {
        (Ok(a), Ok(b)) => a.head == b.head
            && same_details(a.details.as_slice(), b.details.as_slice()),
        (Err(a), Err(b)) => *a == *b,
        _ => false,
    }
}

fn in_two(alloc: Global, front: &[u8], back: &[u8]) -> Result<Batch, BatchFault> {
    let mut pieces = Pieces::new(alloc);
    pieces.feed(front)?;
    pieces.feed(back)?;
    pieces.finish()
}

fn by_bytes(alloc: Global, file: &[u8]) -> Result<Batch, BatchFault> {
    let mut pieces = Pieces::new(alloc);
    for byte in file {
        pieces.feed(&[*byte])?;
    }
    pieces.finish()
}

// A text is read byte by byte, and cut at each one place, as it is read whole.
fn reads_alike(rt: &impl Abort, alloc: Global, text: &[u8]) {
    let whole = read_batch(alloc, text);
    for at in 0..=text.len() {
        let (front, back) = text.split_at(at);
        same!(*rt; (at, are_alike(&in_two(alloc, front, back), &whole)), (at, true));
    }
    same!(*rt; are_alike(&by_bytes(alloc, text), &whole), true);
}

// The head of one-billing's file.
fn head(rt: &impl Abort) -> Head {
    let created = date_read(b"20260301").expect(rt, "a date");
    Head {
        kind: Kind::Transmission,
        file: FileType::Production,
        sender: *b"PHARMSYS                ",
        receiver: *b"RXSWITCH                ",
        lot: Lot::new(42, created).expect(rt, "a lot"),
        time: Time::new(b"0930").expect(rt, "a time"),
    }
}

// The details are that of one billing only.
fn is_one_claim(rt: &impl Abort, details: &[Detail]) {
    same!(*rt; details.len(), 1);
    for detail in details {
        same!(*rt; detail.reference, *b"0000000001");
        same!(*rt; detail.text.bytes(), CLAIM);
    }
}

#[test]
fn reads_one_billing(rt: HostRuntime) {
    one_reading();
    let file = one_billing(&rt, rt.alloc());
    same!(rt; file.len(), 326);
    let batch = read_batch(rt.alloc(), &file).expect(&rt, "a batch");
    same!(rt; batch.head, head(&rt));
    same!(rt; batch.head.lot().created().number(), 20513);
    is_one_claim(&rt, batch.details.as_slice());
}

// A file is written as this one, once it was read.
fn is_written(rt: &impl Abort, alloc: Global, file: &[u8], expected: &[u8]) {
    let batch = read_batch(alloc, file).expect(rt, "a batch");
    let written = write_batch(alloc, &batch.head, batch.details.as_slice());
    same!(*rt; written.expect(rt, "memory").as_slice(), expected);
}

#[test]
fn writes_what_it_reads_and_counts_its_records(rt: HostRuntime) {
    let alloc = rt.alloc();
    let file = one_billing(&rt, alloc);
    is_written(&rt, alloc, &file, &changed(&rt, alloc, &file, 289, b'3'));
    let empty = joined(&rt, alloc, &[HEADER, TRAILER]);
    let without = changed(&rt, alloc, &empty, 94, b'0');
    is_written(&rt, alloc, &without, &changed(&rt, alloc, &empty, 94, b'2'));
}

// One-billing with ends of lines between its records.
const SPACED: [&[u8]; 9] = [
    b"\r\n",
    HEADER,
    b"\r\n",
    b"\x02G10000000001",
    CLAIM,
    b"\x03",
    b"\r\n",
    TRAILER,
    b"\r\n",
];

#[test]
fn reads_pieces_as_the_whole(rt: HostRuntime) {
    let alloc = rt.alloc();
    let file = one_billing(&rt, alloc);
    let spaced = joined(&rt, alloc, &SPACED);
    same!(rt; told(alloc, &spaced), (0, 1));
    reads_alike(&rt, alloc, &spaced);
    reads_alike(&rt, alloc, &file);
    reads_alike(&rt, alloc, &joined(&rt, alloc, &[&file, b"X"]));
    reads_alike(&rt, alloc, &joined(&rt, alloc, &[b"X", &file]));
    reads_alike(&rt, alloc, &changed(&rt, alloc, &file, 289, b'2'));
}

#[test]
fn reads_pieces_of_a_cut_file_as_the_whole(rt: HostRuntime) {
    let file = one_billing(&rt, rt.alloc());
    for length in 0..326usize {
        reads_alike(&rt, rt.alloc(), file.get(..length).unwrap_or(&[]));
    }
}

#[test]
fn keeps_its_first_fault(rt: HostRuntime) {
    let file = one_billing(&rt, rt.alloc());
    let mut pieces = Pieces::new(rt.alloc());
    for byte in &file {
        same!(rt; pieces.feed(&[*byte]), Ok(()));
    }
    for _ in 0..3u8 {
        same!(rt; pieces.feed(b"X"), Err(BatchFault::AfterTrailer { at: 326 }));
    }
    same!(rt; told_of(&pieces.finish()), (11, 326));
}
