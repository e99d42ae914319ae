// The shelf: what is taken from it and given back, by hand.
use crate::one_billing::BOOKS;
use crate::same::same;
use crate::worked::{base, books, id, key, lot, period, plain_sheet, today};
use rx_adjudicate::fits;
use rx_books_parcel::{Footprint, Parcel};
use rx_books_shelf::{Shelf, TakeFault};
use rx_books_store::Books;
use std::alloc::Global;
use std::process::Abort;

// The opening books of case one-billing.
fn opening(rt: &impl Abort, alloc: Global) -> Books {
    books(rt, alloc, BOOKS)
}

// The footprint of a fill of C100.
fn footprint(rt: &impl Abort, alloc: Global, reference: u64) -> Footprint {
    let keys = [key(rt, reference)].to_vec(alloc).expect(rt, "memory");
    let families = [id(rt, b"C100")].to_vec(alloc).expect(rt, "memory");
    Footprint::new(keys, families).expect(rt, "in order")
}

// The footprints of case three-fills-reach-the-family-maximum.
fn three_fills(rt: &impl Abort, alloc: Global) -> Vec<Footprint> {
    let mut footprints = Vec::new(alloc);
    for &reference in &[201, 202, 203] {
        let footprint = footprint(rt, alloc, reference);
        footprints.push(footprint).expect(rt, "memory");
    }
    footprints
}

// The shelf of these books for the three fills.
fn shelf_of(rt: &impl Abort, alloc: Global, books: Books) -> Shelf {
    let footprints = three_fills(rt, alloc);
    Shelf::of(alloc, books, &footprints).expect(rt, "memory")
}

// The shelf of the case shelf-by-hand.
fn shelf(rt: &impl Abort, alloc: Global) -> Shelf {
    shelf_of(rt, alloc, opening(rt, alloc))
}

// The parcel of a fill, taken from a shelf.
fn taken(rt: &impl Abort, alloc: Global, shelf: &mut Shelf, reference: u64) -> Parcel {
    let footprint = footprint(rt, alloc, reference);
    shelf.take(alloc, &footprint).expect(rt, "taken")
}

fn give(rt: &impl Abort, shelf: &mut Shelf, parcel: Parcel) {
    shelf.give(parcel).ok().expect(rt, "given back");
}

// The number of the fault with which a parcel comes back; None where it is accepted.
fn fault_of(shelf: &mut Shelf, parcel: Parcel) -> Option<u32> {
    match shelf.give(parcel) {
        Ok(()) => None,
        Err(fault) => Some(fault.code()),
    }
}

// The parcel of the first fill, from a shelf of these books.
fn first_of(rt: &impl Abort, alloc: Global, books: Books) -> Parcel {
    let mut other = shelf_of(rt, alloc, books);
    taken(rt, alloc, &mut other, 201)
}

// The parcel of the first fill, from another shelf of the same books.
fn twin(rt: &impl Abort, alloc: Global) -> Parcel {
    first_of(rt, alloc, opening(rt, alloc))
}

// The opening books, copied to the next year.
fn later(rt: &impl Abort, alloc: Global) -> Books {
    let period = period(rt, b"20270101", b"20271231");
    let opening = opening(rt, alloc);
    let later = opening.copy(alloc, period).expect(rt, "memory");
    drop(opening);
    later
}

// The parcel of the first fill, from a shelf of those.
fn next_years(rt: &impl Abort, alloc: Global) -> Parcel {
    first_of(rt, alloc, later(rt, alloc))
}

// The books that the shelf closes to: its books agree, and it doesn't come back.
fn closed(rt: &impl Abort, shelf: Shelf) -> Books {
    if !shelf.agrees() {
        panic!(rt; "books that agree");
    }
    shelf.close().ok().expect(rt, "closed")
}

// A shelf whose parcel of the first fill is out, and was dropped.
fn lent(rt: &impl Abort, alloc: Global) -> Shelf {
    let mut shelf = shelf(rt, alloc);
    let _out = taken(rt, alloc, &mut shelf, 201);
    shelf
}

// Why the parcel of a fill isn't taken; None where it is.
fn refused(rt: &impl Abort, alloc: Global, shelf: &mut Shelf, reference: u64) -> Option<TakeFault> {
    let footprint = footprint(rt, alloc, reference);
    shelf.take(alloc, &footprint).err()
}

#[test]
fn a_book_that_is_out_is_absent(rt: HostRuntime) {
    let mut shelf = lent(&rt, rt.alloc());
    let fault = refused(&rt, rt.alloc(), &mut shelf, 202);
    same(&rt, fault, Some(TakeFault::Absent));
    same(&rt, shelf.agrees(), false);
}

#[test]
fn what_was_given_back_can_be_taken(rt: HostRuntime) {
    let mut shelf = shelf(&rt, rt.alloc());
    for &reference in &[201, 202] {
        let parcel = taken(&rt, rt.alloc(), &mut shelf, reference);
        give(&rt, &mut shelf, parcel);
    }
    same(&rt, closed(&rt, shelf), opening(&rt, rt.alloc()));
}

#[test]
fn a_stranger_comes_back_while_nothing_is_out(rt: HostRuntime) {
    let mut shelf = shelf(&rt, rt.alloc());
    let stranger = twin(&rt, rt.alloc());
    same(&rt, fault_of(&mut shelf, stranger), Some(1));
}

#[test]
fn a_parcel_of_another_period_comes_back(rt: HostRuntime) {
    let mut shelf = lent(&rt, rt.alloc());
    let later = next_years(&rt, rt.alloc());
    same(&rt, fault_of(&mut shelf, later), Some(1));
}

// Whether a parcel fits the first of the three fills, under the plain sheet.
fn fits_first(rt: &impl Abort, alloc: Global, parcel: &Parcel) -> bool {
    let asked = today(rt, alloc, &[base(rt, 201, b"C100")]);
    let terms = plain_sheet(rt, alloc).terms(lot(rt, 42), &asked);
    fits(&asked, &terms, parcel)
}

#[test]
fn a_parcel_fits_in_its_period_only(rt: HostRuntime) {
    let (own, later) = (twin(&rt, rt.alloc()), next_years(&rt, rt.alloc()));
    same(&rt, fits_first(&rt, rt.alloc(), &own), true);
    same(&rt, fits_first(&rt, rt.alloc(), &later), false);
}
