//! The text of a books file: its lines, read and written one by one, and the whole file as it is printed.
//!
//! In comes a text of version 1, 2 or 3; out come the head, the ledger and the totals as they are printed, or the
//! first fault with its line. What a line's one spelling is stands in `specs/LineText.antt`, what a file is in
//! `specs/Printed.antt`, and the faults in `specs/TextFault.antt`.
//!
//! ```rust
//! let printed = rx_books_text::read_printed(alloc, bytes)?;
//! ```
//!
//! Whether the printed totals are the sums over the claims is left to the crate above, and so is which version is
//! written: the writers put version 3.
#![tactic(auto)]

mod claim_line;
mod cut;
mod fault;
mod field;
mod head;
mod law;
mod line;
mod member_line;
mod printed;
mod reader;
mod total_line;
mod version;
mod writing;

pub use fault::BooksFault;
pub use head::{Head, read_head};
pub use law::one_reading;
pub use line::{Line, MemberLine, TotalLine, read_line};
pub use printed::Printed;
pub use reader::read_printed;
pub use version::Version;
pub use writing::{put_claim, put_head, put_member, put_total};
