//! Transmissions and replies of the Telecommunication Standard D.0, as values.
//!
//! A `Transmission` is what a pharmacy asks: one to four billings, or one to four reversals, or a header that could not
//! be accepted. A `Reply` is what the payer answers to each. Their types keep the limits of the standard's fields, so
//! that whoever holds one need not test it again.
//!
//! ```rust
//! let Body::Heard(heard) = &transmission.body else { .. };
//! for transaction in heard.list.iter() { .. }
//! ```
//!
//! `==` says without memory whether two of them are the same value; a `Transmission` is copied by `copy`, and a list by `copies`, which
//! may run out of memory. How they are read from bytes and written is left to `rx_d0_request` and `rx_d0_reply`.
#![tactic(auto)]

mod bill;
mod codes;
mod copying;
mod echo;
mod pricing;
mod reply;
mod transaction;
mod transmission;

pub use bill::{Bill, BillParts};
pub use codes::Codes;
pub use copying::{TryCopy, copies};
pub use echo::{Echo, EchoParts};
pub use pricing::{Amounts, Pricing};
pub use reply::{Answer, Answers, Approved, Outcome, Paid, Refused, Reply};
pub use transaction::{Faulty, Reversal, Transaction, Transactions};
pub use transmission::{Body, Heard, Rejected, Transmission};
