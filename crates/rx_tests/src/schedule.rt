// The footprints, waves and queues of the worked cases (tests/cases/README.md), counted by hand.
use crate::same::same;
use crate::worked::{base, books, id, key, reversal, today};
use rx_books_parcel::Footprint;
use rx_books_store::Books;
use rx_d0_values::{Transaction, Transmission};
use rx_fields::{Id, Key, digits_write};
use rx_schedule::{Queues, footprints, waves};
use std::alloc::Global;
use std::process::Abort;

const OPENING: &[u8] = b"BOOKS|3|20260101|20261231\n";

// The books after one-billing.
const BILLED: &[u8] = b"BOOKS|3|20260101|20261231\n\
M|C100|01|20260101|20261231|10000\n\
M|C100|02|20260101|20261231|0\n\
M|C100|03|20260101|20261231|0\n\
M|C200|01|20260101|20261231|0\n\
C|1234567893|123|20260228|C100|01|00002000202|30000|30|30000|175|10000|3000|0|000004200000011\n\
T|C100|13000|10000\n\
T|C200|0|0\n";

// Puts a record of this one transaction to the others.
fn put(rt: &impl Abort, alloc: Global, records: &mut Vec<Transmission>, one: Transaction) {
    records.push(today(rt, alloc, &[one])).expect(rt, "memory");
}

// Three claims of one family.
fn three_fills(rt: &impl Abort, alloc: Global) -> Vec<Transmission> {
    let mut records = Vec::new(alloc);
    for &reference in &[201, 202, 203] {
        put(rt, alloc, &mut records, base(rt, reference, b"C100"));
    }
    records
}

// The footprints of the records on the books of this text.
fn footprints_on(
    rt: &impl Abort,
    alloc: Global,
    text: &[u8],
    records: &[Transmission],
) -> Vec<Footprint> {
    let opening = books(rt, alloc, text);
    footprints(alloc, &opening, records).expect(rt, "memory")
}

// The footprint of the record at the place, from 0, names these fill keys and families only.
fn names(rt: &impl Abort, list: &[Footprint], at: usize, keys: &[Key], families: &[Id]) {
    let footprint = list.get(at).expect(rt, "a footprint");
    same(rt, footprint.keys(), keys);
    same(rt, footprint.families(), families);
}

// The records go in waves of these numbers, and the chain of as many as there are waves is of these records.
fn waves_are(
    rt: &impl Abort,
    alloc: Global,
    list: &[Footprint],
    numbers: &[usize],
    chain: &[usize],
) {
    let waves = waves(alloc, list).expect(rt, "memory");
    same(rt, waves.numbers.as_slice(), numbers);
    same(rt, waves.count, chain.len());
    same(rt, waves.chain.as_slice(), chain);
}

// The footprints of the three fills.
fn of_three_fills(rt: &impl Abort, alloc: Global) -> Vec<Footprint> {
    let fills = three_fills(rt, alloc);
    footprints_on(rt, alloc, OPENING, &fills)
}

#[test]
fn three_fills_reach_the_family_maximum(rt: HostRuntime) {
    let c100 = [id(&rt, b"C100")];
    let list = of_three_fills(&rt, rt.alloc());
    same(&rt, list.len(), 3);
    names(&rt, &list, 0, &[key(&rt, 201)], &c100);
    names(&rt, &list, 1, &[key(&rt, 202)], &c100);
    names(&rt, &list, 2, &[key(&rt, 203)], &c100);
    waves_are(&rt, rt.alloc(), &list, &[1, 2, 3], &[1, 2, 3]);
}

#[test]
fn same_key_another_family(rt: HostRuntime) {
    let c200 = id(&rt, b"C200");
    let mut records = Vec::new(rt.alloc());
    put(&rt, rt.alloc(), &mut records, base(&rt, 123, b"C200"));
    let list = footprints_on(&rt, rt.alloc(), BILLED, &records);
    same(&rt, list.len(), 1);
    names(&rt, &list, 0, &[key(&rt, 123)], &[c200]);
    waves_are(&rt, rt.alloc(), &list, &[1], &[1]);
}

// The claim of one-billing taken back, billed for C200 and taken back again.
fn billed_for_another_family(rt: &impl Abort, alloc: Global) -> Vec<Transmission> {
    let mut records = Vec::new(alloc);
    put(rt, alloc, &mut records, reversal(rt, 123));
    put(rt, alloc, &mut records, base(rt, 123, b"C200"));
    put(rt, alloc, &mut records, reversal(rt, 123));
    records
}

// The footprints of these, and of another claim of C100.
fn of_a_freed_key(rt: &impl Abort, alloc: Global) -> Vec<Footprint> {
    let mut records = billed_for_another_family(rt, alloc);
    put(rt, alloc, &mut records, base(rt, 125, b"C100"));
    footprints_on(rt, alloc, BILLED, &records)
}

#[test]
fn reversal_frees_a_key(rt: HostRuntime) {
    let (c100, c200) = (id(&rt, b"C100"), id(&rt, b"C200"));
    let list = of_a_freed_key(&rt, rt.alloc());
    same(&rt, list.len(), 4);
    names(&rt, &list, 0, &[key(&rt, 123)], &[c100]);
    names(&rt, &list, 1, &[key(&rt, 123)], &[c200]);
    names(&rt, &list, 2, &[key(&rt, 123)], &[c100, c200]);
    names(&rt, &list, 3, &[key(&rt, 125)], &[c100]);
    waves_are(&rt, rt.alloc(), &list, &[1, 2, 3, 4], &[1, 2, 3, 4]);
}

// Two records of each of five hundred families, the second ones after the first.
fn two_of_each_family(rt: &impl Abort, alloc: Global) -> Vec<Transmission> {
    let mut records = Vec::new(alloc);
    for place in 1..1001 {
        let digits: [u8; 3] = digits_write(7 * place % 500 + 1);
        put(rt, alloc, &mut records, base(rt, place, &digits));
    }
    records
}

// Whether the first records, this many, are in wave 1, and the others in wave 2.
fn are_in_two(numbers: &[usize], count: usize) -> bool {
    numbers.iter().take(count).all(|wave| *wave == 1)
        && numbers.iter().skip(count).all(|wave| *wave == 2)
}

#[test]
fn five_hundred_families(rt: HostRuntime) {
    let records = two_of_each_family(&rt, rt.alloc());
    let list = footprints_on(&rt, rt.alloc(), OPENING, &records);
    let waves = waves(rt.alloc(), &list).expect(&rt, "memory");
    same(&rt, waves.numbers.len(), 1000);
    same(&rt, are_in_two(&waves.numbers, 500), true);
    same(&rt, waves.count, 2);
    same(&rt, waves.chain.as_slice(), [1, 501].as_slice());
    all_go(&rt, rt.alloc(), &list, 1000);
}

#[test]
fn empty_batch(rt: HostRuntime) {
    let list = footprints_on(&rt, rt.alloc(), OPENING, &[]);
    same(&rt, list.len(), 0);
    waves_are(&rt, rt.alloc(), &list, &[], &[]);
    all_go(&rt, rt.alloc(), &list, 0);
}

fn queues_of(rt: &impl Abort, alloc: Global, list: &[Footprint]) -> Queues {
    Queues::of(alloc, list).expect(rt, "memory")
}

// Issues the place that is ready and passes it at once, or says that none is.
fn pass_next(queues: &mut Queues) -> bool {
    let Some(place) = queues.ready() else {
        return false;
    };
    queues.hand();
    queues.pass(place);
    true
}

// How many places go so, one after another.
fn drive(queues: &mut Queues, most: usize) -> usize {
    for went in 0..most {
        if !pass_next(queues) {
            return went;
        }
    }
    most
}

// This many places of the footprints go, one after another, and then none is ready.
fn all_go(rt: &impl Abort, alloc: Global, list: &[Footprint], count: usize) {
    let mut queues = queues_of(rt, alloc, list);
    same(rt, drive(&mut queues, 2000), count);
    same(rt, queues.ready(), None);
}
