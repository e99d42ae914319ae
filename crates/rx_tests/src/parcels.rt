// What no clause says: that the calls succeed, on books whose figures were counted by hand.
use crate::same::{differ, same as equal};
use crate::table::same;
use crate::values::{TODAY, claim, id, key, person, this_year};
use rx_books_family::{Family, KeyBook};
use rx_books_parcel::{Footprint, Parcel};
use rx_d0_values::Amounts;
use rx_fields::Key;
use rx_ledger::{Member, MemberKey, Row};
use rx_sorted::Few;
use std::alloc::Global;
use std::process::Abort;

// The claim of one-billing.
fn one_billing(rt: &impl Abort) -> Row {
    let amounts = Amounts {
        ingredient_cost: 30_000,
        dispensing_fee: 175,
        deductible: 10_000,
        copay: 3_000,
        coinsurance: 0,
    };
    let row = claim(rt, key(rt, 123, TODAY), b"C100", amounts, 4_200_000_011);
    row.expect(rt, "within the limits")
}

fn enroll(rt: &impl Abort, book: &mut Family, text: &[u8]) {
    let (family, person, coverage) = (book.family(), person(rt, text), this_year(rt));
    let key = MemberKey { family, person };
    assert!(rt; book.is_past(&person), "a member after the others");
    book.add_member(Member { key, coverage })
        .expect(rt, "memory");
}

// The book of a family with the persons 01 and 02.
fn book(rt: &impl Abort, alloc: Global, family: &[u8]) -> Family {
    let mut book = Family::new(alloc, id(rt, family), this_year(rt));
    enroll(rt, &mut book, b"01");
    enroll(rt, &mut book, b"02");
    book
}

fn parcel_of(rt: &impl Abort, keys: Few<KeyBook>, families: Few<Family>) -> Parcel {
    let period = this_year(rt);
    assert!(rt; Parcel::are_books(period, keys.as_slice(), families.as_slice()));
    Parcel::new(period, keys, families)
}

// The key of reference 123 without a row, and the family C100.
fn opening(rt: &impl Abort, alloc: Global) -> Parcel {
    let (key, row) = (key(rt, 123, TODAY), None);
    let keys = Few::One(KeyBook { key, row });
    parcel_of(rt, keys, Few::One(book(rt, alloc, b"C100")))
}

fn put(rt: &impl Abort, parcel: &mut Parcel, row: Row) {
    assert!(rt; parcel.agrees());
    assert!(rt; parcel.has_key(&row.key) && parcel.has_family(&row.family));
    assert!(rt; parcel.row(&row.key).is_none(), "a free key");
    assert!(rt;
        parcel.member(&row.family, &row.person).is_some(),
        "a listed member"
    );
    parcel.add(row).expect(rt, "memory");
}

fn take_out(rt: &impl Abort, parcel: &mut Parcel, key: &Key) {
    let row = parcel.row(key).expect(rt, "a row under the key");
    assert!(rt; parcel.agrees());
    assert!(rt; parcel.has_key(key) && parcel.has_family(&row.family));
    parcel.remove(key);
}

// The opening with one-billing's claim put in.
fn after_one_billing(rt: &impl Abort, alloc: Global) -> Parcel {
    let mut parcel = opening(rt, alloc);
    put(rt, &mut parcel, one_billing(rt));
    parcel
}

#[test]
fn a_row_goes_out_of_both_books(rt: HostRuntime) {
    let (c100, key) = (id(&rt, b"C100"), key(&rt, 123, TODAY));
    let mut parcel = after_one_billing(&rt, rt.alloc());
    take_out(&rt, &mut parcel, &key);
    same!(rt; parcel.row(&key), None);
    same!(rt; parcel.rows(&c100).len(), 0);
    same!(rt; parcel.out_of_pocket(&c100), Some(0));
    equal(&rt, parcel, opening(&rt, rt.alloc()));
}

#[test]
fn copies_are_equal_until_one_changes(rt: HostRuntime) {
    let parcel = after_one_billing(&rt, rt.alloc());
    let mut copy = parcel.copy(rt.alloc()).expect(&rt, "memory");
    same!(rt; copy, parcel);
    take_out(&rt, &mut copy, &key(&rt, 123, TODAY));
    differ(&rt, copy, parcel);
}

// The footprint of the keys of two references and of one family.
fn footprint(rt: &impl Abort, alloc: Global, first: u64, second: u64) -> Option<Footprint> {
    let keys = [key(rt, first, TODAY), key(rt, second, TODAY)]
        .to_vec(alloc)
        .expect(rt, "memory");
    let families = [id(rt, b"C100")].to_vec(alloc).expect(rt, "memory");
    Footprint::new(keys, families)
}

#[test]
fn footprints_are_equal_by_what_they_name(rt: HostRuntime) {
    let names = footprint(&rt, rt.alloc(), 123, 124).expect(&rt, "in order");
    let copy = names.copy(rt.alloc()).expect(&rt, "memory");
    same!(rt; copy, names);
    drop(copy);
    let other = footprint(&rt, rt.alloc(), 123, 125).expect(&rt, "in order");
    differ(&rt, names, other);
}
