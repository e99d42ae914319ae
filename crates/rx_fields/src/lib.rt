//! Field values of pharmacy claims: amounts, numbers, dates and ids, each read from the one text that stands for it.
//!
//! In come the bytes of a field; out comes a small `Copy` value, or the first fault by name. A value has one
//! written spelling, which reads back as the same value. What a text stands for is defined in `specs/`, a file a
//! subject: `Digits`, `Amount`, `Calendar`, `Clock`, `Text`, `Numbered`, `Codes`.
//!
//! ```rust
//! let paid = rx_fields::signed_read(b"0001717N")?; // -17175 cents
//! let text = rx_fields::signed_write(paid); // b"0001717N" again
//! ```
//!
//! Nothing here takes memory. Which fields a record has, and where, is left to the crates above.
#![tactic(auto)]

mod amount;
mod bounded;
mod cents;
mod code;
mod day;
mod days;
mod digits;
mod door;
mod fault;
mod id;
mod key;
mod limits;
mod lot;
mod memory;
mod padding;
mod period;
mod product;
mod short_id;
mod stamp;
mod time;

pub use amount::{signed_read, signed_write};
pub use bounded::{Authorization, Bounded, Count, Quantity, Reference};
pub use cents::Cents;
pub use code::Code;
pub use day::{Day, date_read, date_write};
pub use days::Days;
pub use digits::{digits_write, number_read};
pub use door::Door;
pub use fault::{FieldFault, IdFault};
pub use id::{Id, trimmed};
pub use key::Key;
pub use limits::{
    MOST_AUTHORIZATION, MOST_CENTS, MOST_DETAILS, MOST_LINES, MOST_QUANTITY, MOST_REFERENCE,
    MOST_WORKERS, NUMBERS_OF_A_BATCH,
};
pub use lot::Lot;
pub use memory::Memory;
pub use period::Period;
pub use product::Product;
pub use short_id::{Person, Provider, ShortId};
pub use stamp::Stamp;
pub use time::Time;
