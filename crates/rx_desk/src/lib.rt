//! The desk: it issues the records of a batch, each with its books, and takes them back finished.
//!
//! In come the books and the records; out go orders, in any order that keeps sharers in file order, and in come the
//! `Done`s; at the end out come the books and the replies of the records one after another in file order.
//!
//! ```rust
//! let mut desk = Desk::new(alloc, lot, &sheet, books, transmissions)?;
//! while let Next::Order(order) = desk.next() {
//!     desk.give(adjudicate(alloc, order)?)?;
//! }
//! let finished = desk.close()?;
//! ```
//!
//! What each call says stands in `specs/Desks.antt`. Who adjudicates the orders, and how many at once, is left to the
//! caller: the desk knows nothing of threads.
#![tactic(auto)]

mod desk;
mod making;
mod moves;
mod next;
mod remains;
mod same_job;
mod state;

pub use desk::Desk;
pub use next::Next;
pub use remains::Remains;
pub use rx_schedule::Event;
pub use rx_serial::Finished;
