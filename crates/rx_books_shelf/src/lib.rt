//! The shelf: the books, with a place for each book that a batch names, from which parcels are taken and to which they
//! are given back (docs/ARCHITECTURE.md, "Desk and shelf").
//!
//! In come the books and the footprints of the records; out come parcels, and at the end the books again.
//!
//! ```rust
//! let mut shelf = Shelf::of(alloc, books, &footprints)?;
//! let parcel = shelf.take(alloc, &footprints[0])?;
//! shelf.give(parcel)?;
//! let books = shelf.close()?;
//! ```
//!
//! What each book is worth on a shelf stands in `rx_books_family`'s `specs/Shelves.antt`, what taking and giving make of it in
//! `specs/Taken.antt`.
#![tactic(auto)]

mod agreement;
mod closing;
mod fault;
mod gathering;
mod held;
mod naming;
mod placing;
mod rooms;
mod shelf;
mod summing;
mod unique;
mod unsummed;

pub use fault::{GiveFault, TakeFault};
pub use shelf::Shelf;
