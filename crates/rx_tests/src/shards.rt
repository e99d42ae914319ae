// Shards of batches whose sets of records are counted by hand.

use crate::same::same;
use crate::worked::{base, books, reversal, today};
use rx_d0_values::{Transaction, Transmission};
use rx_fields::digits_write;
use rx_schedule::{Shards, shards};
use std::alloc::Global;
use std::process::Abort;

// Puts a record of this one transaction to the others.
fn put(rt: &impl Abort, alloc: Global, records: &mut Vec<Transmission>, one: Transaction) {
    records.push(today(rt, alloc, &[one])).expect(rt, "memory");
}

// The shards of the records on books without a line, at most this many.
fn shards_of(rt: &impl Abort, alloc: Global, records: &[Transmission], most: usize) -> Shards {
    let opening = books(rt, alloc, b"BOOKS|3|20260101|20261231\n");
    let found = shards(alloc, &opening, records, most.max(1));
    drop(opening);
    found.expect(rt, "memory")
}

// Puts a billing under each of these keys; those that have one remainder by `families` are of one family.
fn bill(
    rt: &impl Abort,
    alloc: Global,
    records: &mut Vec<Transmission>,
    keys: std::ops::Range<u64>,
    families: u64,
) {
    for key in keys {
        let family = key.checked_rem(families).unwrap_or(0);
        let digits: [u8; 3] = digits_write(family % 1_000);
        put(rt, alloc, records, base(rt, key, &digits));
    }
}

// How many records are in the shard.
fn size_of(found: &Shards, shard: usize) -> usize {
    found
        .numbers
        .iter()
        .filter(|number| **number == shard)
        .count()
}

// The shards of five billings of each of eight families.
fn of_eight_families(rt: &impl Abort, alloc: Global) -> Shards {
    let mut records = Vec::new(alloc);
    bill(rt, alloc, &mut records, 0..40, 8);
    shards_of(rt, alloc, &records, 4)
}

#[test]
fn eight_equal_sets_over_four_shards(rt: HostRuntime) {
    let found = of_eight_families(&rt, rt.alloc());
    same(&rt, found.count, 4);
    same(&rt, found.largest, 10);
    same(&rt, found.transactions, 40);
    for shard in 0..4 {
        same(&rt, size_of(&found, shard), 10);
    }
    let first: &[usize] = &[0, 1, 2, 3, 0, 1, 2, 3];
    same(&rt, found.numbers.get(..8) == Some(first), true);
    same(&rt, found.of(1), found.of(33));
}

// The places of the shard are these.
fn places_are(rt: &impl Abort, places: &[Vec<usize>], shard: usize, expected: &[usize]) {
    let list = places.get(shard).expect(rt, "a shard");
    same(rt, list.as_slice(), expected);
}

#[test]
fn reversal_is_with_all_billers_of_its_key(rt: HostRuntime) {
    let alloc = rt.alloc();
    let mut records = Vec::new(alloc);
    put(&rt, alloc, &mut records, reversal(&rt, 7));
    put(&rt, alloc, &mut records, base(&rt, 7, b"C300"));
    put(&rt, alloc, &mut records, base(&rt, 7, b"C400"));
    put(&rt, alloc, &mut records, base(&rt, 8, b"C400"));
    put(&rt, alloc, &mut records, base(&rt, 9, b"C500"));
    let found = shards_of(&rt, alloc, &records, 5);
    same(&rt, found.numbers.as_slice(), [0, 0, 0, 0, 1].as_slice());
    same(&rt, found.count, 2);
    let places = found.places(alloc).expect(&rt, "memory");
    same(&rt, places.len(), 2);
    places_are(&rt, &places, 0, &[1, 2, 3, 4]);
    places_are(&rt, &places, 1, &[5]);
}
