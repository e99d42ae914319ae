//! One record after another, in file order, on the books themselves: what `rx_ledger`'s fold gives, by look-ups and
//! stored totals in place of lists that are walked (docs/GUARANTEES.md, "Record and fold").
//!
//! In come books and the transmissions of a batch, or some of them (`InOrder::of_records`); out come a reply to each
//! record, as it is adjudicated, and the books after all of them.
//!
//! ```rust
//! let mut order = InOrder::new(alloc, books, &transmissions)?;
//! let reply = order.record(alloc, &terms, place, &transmission)?;
//! let books = order.close();
//! ```
//!
//! What is the same for all records is made once, before the first: a slot for each fill key that they name, the places
//! of their members, and the count of each kind of fill of what they bill, so that a refill is tested without going over
//! rows.
#![tactic(auto)]

mod ahead;
mod billed;
mod counted;
mod ended;
mod fill;
mod finished;
mod in_order;
mod marks;
mod names;
mod near;
mod refill;
mod used;

pub use ended::Ended;
pub use finished::Finished;
pub use in_order::InOrder;
