//! Books read, lent and written through `rx_books` only, which has every name that this takes.

use crate::table::same;
use rx_books::{
    Amounts, Authorization, Books, BooksFault, Days, Footprint, Id, Key, Parcel, Person, Product,
    Provider, Quantity, Reference, Row, Shelf, TakeFault, date_read,
};
use std::alloc::Global;
use std::process::Abort;

// The opening books of the worked case one-billing, and its end books (tests/cases/README.md).
const OPENING: &[u8] = b"BOOKS|1|20260101|20261231
M|C100|01|20260101|20261231|0
M|C100|02|20260101|20261231|0
M|C100|03|20260101|20261231|0
M|C200|01|20260101|20261231|0
T|C100|0
T|C200|0
";

const END: &[u8] = b"BOOKS|3|20260101|20261231
M|C100|01|20260101|20261231|10000
M|C100|02|20260101|20261231|0
M|C100|03|20260101|20261231|0
M|C200|01|20260101|20261231|0
C|1234567893|123|20260228|C100|01|00002000202|30000|30|30000|175|10000|3000|0|000004200000011
T|C100|13000|10000
T|C200|0|0
";

const AMOUNTS: Amounts = Amounts {
    ingredient_cost: 30_000,
    dispensing_fee: 175,
    deductible: 10_000,
    copay: 3_000,
    coinsurance: 0,
};

fn family(rt: &impl Abort) -> Id {
    Id::new(b"C100", 20).expect(rt, "an id")
}

fn fill_key(rt: &impl Abort) -> Key {
    Key {
        provider: Provider::new(b"1234567893").expect(rt, "a provider"),
        reference: Reference::new(123).expect(rt, "a reference"),
        date: date_read(b"20260228").expect(rt, "a date"),
    }
}

// The claim that the case adds.
fn claim(rt: &impl Abort) -> Row {
    let row = Row::new(
        fill_key(rt),
        family(rt),
        Person::new(b"01").expect(rt, "a person"),
        Product::new(b"00002000202").expect(rt, "a product"),
        Quantity::new(30_000).expect(rt, "a quantity"),
        Days::new(30).expect(rt, "days"),
        AMOUNTS,
        Authorization::new(4_200_000_011).expect(rt, "a number"),
    );
    row.expect(rt, "within the limits")
}

// The books that the claim names.
fn footprint(rt: &impl Abort, alloc: Global) -> Footprint {
    let keys = [fill_key(rt)].to_vec(alloc).expect(rt, "memory");
    let families = [family(rt)].to_vec(alloc).expect(rt, "memory");
    Footprint::new(keys, families).expect(rt, "in order")
}

fn opening(rt: &impl Abort, alloc: Global) -> Books {
    Books::read(alloc, OPENING).expect(rt, "books")
}

fn shelf(rt: &impl Abort, alloc: Global) -> Shelf {
    let footprints = [footprint(rt, alloc)];
    Shelf::of(alloc, opening(rt, alloc), &footprints).expect(rt, "memory")
}

fn taken(rt: &impl Abort, alloc: Global, shelf: &mut Shelf) -> Parcel {
    let footprint = footprint(rt, alloc);
    shelf.take(alloc, &footprint).expect(rt, "taken")
}

// Why the parcel isn't taken; None where it is.
fn refused(rt: &impl Abort, alloc: Global, shelf: &mut Shelf) -> Option<TakeFault> {
    let footprint = footprint(rt, alloc);
    shelf.take(alloc, &footprint).err()
}

fn put(rt: &impl Abort, parcel: &mut Parcel, row: Row) {
    assert!(rt; parcel.agrees(), "books that agree");
    assert!(rt; parcel.has_key(&row.key), "the book of the key");
    assert!(rt; parcel.has_family(&row.family), "the book of the family");
    assert!(rt; parcel.row(&row.key).is_none(), "a free key");
    let member = parcel.member(&row.family, &row.person);
    assert!(rt; member.is_some(), "a listed member");
    parcel.add(row).expect(rt, "memory");
}

fn closed(rt: &impl Abort, shelf: Shelf) -> Books {
    assert!(rt; shelf.agrees(), "books that agree");
    shelf.close().ok().expect(rt, "closed")
}

// The books after the claim was put into its parcel.
fn after(rt: &impl Abort, alloc: Global) -> Books {
    let mut shelf = shelf(rt, alloc);
    let mut parcel = taken(rt, alloc, &mut shelf);
    put(rt, &mut parcel, claim(rt));
    shelf.give(parcel).ok().expect(rt, "given back");
    closed(rt, shelf)
}

#[test]
fn a_claim_is_put_into_its_books(rt: HostRuntime) {
    let books = after(&rt, rt.alloc());
    let written = books.write(rt.alloc()).expect(&rt, "memory");
    same!(rt; written.as_slice(), END);
}

#[test]
fn a_parcel_is_out_until_it_is_given(rt: HostRuntime) {
    let mut shelf = shelf(&rt, rt.alloc());
    let parcel = taken(&rt, rt.alloc(), &mut shelf);
    same!(rt; refused(&rt, rt.alloc(), &mut shelf), Some(TakeFault::Absent));
    shelf.give(parcel).ok().expect(&rt, "given back");
}

#[test]
fn a_line_of_no_shape_is_refused(rt: HostRuntime) {
    let fault = Books::read(rt.alloc(), b"BOOKS|3|20260101|20261231\nX|\n").err();
    same!(rt; fault, Some(BooksFault::Line(2)));
}
