//! The lists that a books text prints, read quickly: no member is looked up, and no fault is named.
//!
//! In comes a text of version 1, 2 or 3; out come the head, the members with their deductibles, the claims and the
//! totals, in order, as `specs/Lists.antt` has them, and how many bytes each claim's line has, or nothing.
//!
//! ```rust
//! let lists = rx_books_scan::read_lists(alloc, bytes);
//! ```
//!
//! Nothing says nothing: memory ran out, or the text isn't a books file. `rx_books_text::read_printed` says. Whether a
//! claim's member is listed is left to the caller too.
#![tactic(auto)]

mod claims;
mod cut;
mod field;
mod lanes;
mod line;
mod lists;
mod members;
mod part;
mod quick;
mod reader;
mod run;
mod whole;

pub use lists::Lists;
pub use reader::{read_lists, read_lists_in_parts};
