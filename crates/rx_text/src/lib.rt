//! What readers and writers of texts share: classes of bytes, the bytes that separate, and bytes put where there is room.
//!
//! In come bytes; out comes whether they are of a class, or how many of them are. What a class is stands in
//! `specs/Bytes.antt`; the words in which the specs of readers say what a call answers, and one step after another, in
//! `Outcomes`, `Results` and `Options`.
//!
//! ```rust
//! if rx_text::all_digits(field) { .. }
//! ```
//!
//! What a text stands for is left to the crates above.
#![tactic(auto)]

mod classes;
mod ends;
mod separators;
mod writing;

pub use classes::{all_digits, all_printable, is_printable};
pub use ends::line_ends;
pub use separators::{FIELD, GROUP, SEGMENT};
pub use writing::put;
