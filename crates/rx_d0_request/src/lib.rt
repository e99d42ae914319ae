//! Requests of the Telecommunication Standard D.0, read from bytes.
//!
//! In comes any byte string, and the plan's door, which a request has to name. Out comes the transmission that the request
//! grammar makes of it: what is asked, or the reject codes. `specs/Request.antt` says which, over the tables of
//! `specs/Codes.antt`. How a request is written stands in `specs/Written.antt`, and that it is accepted as it was written is the
//! law `written_is_heard`.
//!
//! ```rust
//! let transmission = rx_d0_request::decode(alloc, &sheet.door(), bytes)?;
//! ```
//!
//! No text is refused; the one error is out of memory. What is answered to a request is left to the crates above.
#![tactic(auto)]

mod bill;
mod codes;
mod doors;
mod field;
mod header;
mod known;
mod law;
mod marks;
mod part;
mod piece;
mod reading;
mod request;
mod value;

pub use doors::{decode_routed, door_in, plan_named};
pub use header::{BIN_LENGTH, HEADER_LENGTH, PCN_AT, PCN_LENGTH};
pub use law::written_is_heard;
pub use request::decode;
