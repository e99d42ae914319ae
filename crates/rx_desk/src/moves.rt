ghost use Rattle.std.specs.Prelude.{◌≡◌, ◌<◌, ◌≤◌, ◌++◌, ◌∷◌, [], false, true, length, slice_set, vec_capacity, IfErr, IfOk, OnErr};
ghost use Rattle.rx_books_family.specs.Books.{Book, book};
ghost use Rattle.rx_books_parcel.specs.Footprints.{names};
ghost use Rattle.rx_books_parcel.specs.Parcels.{named_in};
ghost use Rattle.rx_books_family.specs.Shelves.{AreAllAgreed, has_slot, is_out, value_of};
ghost use Rattle.rx_ledger.specs.Ledger.{IsLedger};
ghost use Rattle.rx_desk.specs.Moved.{IsGiven, IsSameShelf, IsTaken};

use crate::state::State;
use rx_books_parcel::{Footprint, Parcel};
use rx_books_shelf::{Shelf, TakeFault};
use rx_books_store::Books;
use rx_d0_values::Transmission;
use rx_fields::Memory;
use rx_schedule::Event;
use std::alloc::Global;

/// The books of a record, with copies of them and of the record.
#[derive(Drop)]
pub(crate) struct Taken {
    pub(crate) parcel: Parcel,
    pub(crate) kept: Parcel,
    pub(crate) transmission: Transmission,
}

/// Moves the books of a footprint out of their places, and makes the copies. Where memory runs out the books go back.
pub(crate) fn take_books(
    alloc: Global,
    shelf: &mut Shelf,
    footprint: &Footprint,
    transmission: &Transmission,
) -> Result<Taken, Memory>
    requires placed { (b : Book) → names footprint.now b ≡ true → has_slot shelf.old b ≡ true }
    requires inside { (b : Book) → names footprint.now b ≡ true → is_out shelf.old b ≡ false }
    ensures parcel { IfOk result (λ taken. IsTaken shelf.old shelf.new footprint.now taken.parcel) }
    ensures kept { IfOk result (λ taken. taken.kept ≡ taken.parcel) }
    ensures transmission { IfOk result (λ taken. taken.transmission ≡ transmission.now) }
    ensures err { OnErr result (IsSameShelf shelf.old shelf.new) }
{
    let parcel = moved_out(alloc, shelf, footprint)?;
    match copies(alloc, &parcel, transmission) {
        Ok((kept, transmission)) => Ok(Taken {
            parcel,
            kept,
            transmission,
        }),
        Err(refused) => {
            put_in(shelf, parcel);
            Err(refused)
        }
    }
}

// Moves the books of a footprint, all of which are in, out of their places.
fn moved_out(alloc: Global, shelf: &mut Shelf, footprint: &Footprint) -> Result<Parcel, Memory>
    requires placed { (b : Book) → names footprint.now b ≡ true → has_slot shelf.old b ≡ true }
    requires inside { (b : Book) → names footprint.now b ≡ true → is_out shelf.old b ≡ false }
    ensures ok { IfOk result (IsTaken shelf.old shelf.new footprint.now) }
    ensures err { OnErr result (shelf.new ≡ shelf.old) }
{
    match shelf.take(alloc, footprint) {
        Ok(parcel) => Ok(parcel),
        Err(TakeFault::Memory) => Err(Memory),
        Err(TakeFault::Absent) => unreachable!(),
    }
}

// Equal copies of a parcel and of a record.
fn copies(
    alloc: Global,
    parcel: &Parcel,
    transmission: &Transmission,
) -> Result<(Parcel, Transmission), Memory>
    ensures kept { IfOk result (λ made. made.0 ≡ parcel.now) }
    ensures transmission { IfOk result (λ made. made.1 ≡ transmission.now) }
{
    let kept = parcel.copy(alloc)?;
    let transmission = transmission.copy(alloc)?;
    Ok((kept, transmission))
}

/// Moves a parcel's books, all of which are out, into their places. It takes no memory.
pub(crate) fn put_in(shelf: &mut Shelf, parcel: Parcel)
    requires period { parcel.period ≡ shelf.old.period }
    requires outside { (b : Book) → names (named_in parcel) b ≡ true → is_out shelf.old b ≡ true }
    ensures { IsGiven shelf.old shelf.new parcel }
{
    match shelf.give(parcel) {
        Ok(()) => {}
        Err(_) => unreachable!(),
    }
}

/// The books of a shelf where none is out. It takes no memory.
pub(crate) fn closed(shelf: Shelf) -> Books
    requires inside { (b : Book) → is_out shelf b ≡ false }
    requires agreed { AreAllAgreed (value_of shelf) }
    ensures period { result.period ≡ shelf.period }
    ensures values { (b : Book) → book b result.ledger ≡ value_of shelf b }
    ensures within { IsLedger result.ledger }
{
    match shelf.close() {
        Ok(books) => books,
        Err(_) => unreachable!(),
    }
}

/// Puts an event after the others, for which there is room.
pub(crate) fn note(history: &mut Vec<Event>, event: Event)
    requires { length history.old.items < vec_capacity history.old }
    ensures items { history.new.items ≡ history.old.items ++ event ∷ [] }
    ensures room { vec_capacity history.old ≤ vec_capacity history.new }
{
    match history.push(event) {
        Ok(()) => {}
        Err(_) => unreachable!(),
    }
}

/// Notes that a record is out with this parcel.
pub(crate) fn mark_out(states: &mut Vec<State>, at: usize, kept: Parcel)
    requires { at < length states.old.items }
    ensures { states.new.items ≡ slice_set states.old.items at (State.Out kept) }
{
    states[at] = State::Out(kept);
}

/// Notes that a record was given; what stood there before comes back.
pub(crate) fn mark_given(states: &mut Vec<State>, at: usize) -> State
    requires { at < length states.old.items }
    ensures { states.new.items ≡ slice_set states.old.items at State.Given }
{
    std::mem::replace(&mut states[at], State::Given)
}
