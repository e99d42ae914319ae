//! Reply transmissions of the Telecommunication Standard D.0 as bytes, one text for each reply.
//!
//! ```text
//! Reply  -- encode -------->  bytes (put_reply: at the end of a text)
//! bytes  -- decode_reply -->  Reply, or the first fault: Head, Segment, Field
//! ```
//!
//! What is written is read back as the same reply, and nothing else is read:
//!
//! ```rust
//! let text = rx_d0_reply::encode(alloc, &reply)?;
//! let again = rx_d0_reply::decode_reply(alloc, &text)?; // equal to the reply
//! ```
//!
//! The text is defined in `specs/Text.antt`, a line for each line of the table in docs/FORMATS.md; which replies have one
//! in `specs/Limits.antt`; what is wrong with other bytes in `specs/Fault.antt`. What a reply answers is left to the
//! crates that make one.
#![tactic(auto)]

mod fault;
mod law;
mod layout;
mod reading;
mod shape;
mod writing;

pub use fault::ReplyFault;
pub use law::read_back;
pub use reading::decode_reply;
pub use writing::{encode, put_reply};
