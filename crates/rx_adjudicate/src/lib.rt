//! One record on its own books: what it does to its parcel is what it does to the whole ledger.
//!
//! In comes an `Order`, a record with its place, its terms and the parcel of its books; out comes a `Done`, the order
//! with the reply to it and the parcel after it. What they keep stands in `specs/Orders.antt`; that this is what the
//! record makes of the whole ledger is `rx_books_parcel`'s law of locality.
//!
//! ```rust
//! let done = adjudicate(alloc, order)?;
//! let (order, after, reply) = done.part();
//! ```
//!
//! The rules are those of `rx_ledger`; which records may be adjudicated at once is left to the crates above.
#![tactic(auto)]

mod agreed;
mod done;
mod fitting;
mod order;

pub use done::{Done, adjudicate};
pub use fitting::fits;
pub use order::Order;
