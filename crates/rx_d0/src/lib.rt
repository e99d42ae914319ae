//! The Telecommunication Standard D.0 as this product's profile has it: requests in, replies out.
//!
//! `decode` reads any byte string as a request; `encode` writes a reply and `decode_reply` reads it back. What they
//! speak of are the values of `rx_d0_values`, whose fields have the types of `rx_fields`.
//!
//! ```rust
//! let transmission = rx_d0::decode(alloc, &door, detail)?;
//! let text = rx_d0::encode(alloc, &reply)?;
//! ```
#![tactic(auto)]

pub use rx_d0_reply::{ReplyFault, decode_reply, encode, put_reply, read_back};
pub use rx_d0_request::{HEADER_LENGTH, decode, written_is_heard};
pub use rx_d0_values::{
    Amounts, Answer, Answers, Approved, Bill, BillParts, Body, Codes, Echo, EchoParts, Faulty,
    Heard, Outcome, Paid, Pricing, Refused, Rejected, Reply, Reversal, Transaction, Transactions,
    Transmission, TryCopy, copies,
};
pub use rx_fields::{
    Authorization, Cents, Code, Count, Day, Days, Door, Id, Key, Memory, Person, Product, Provider,
    Quantity, Reference,
};
