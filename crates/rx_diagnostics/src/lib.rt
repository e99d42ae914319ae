//! Faults in words: where in its file a fault stands, what is there, what is expected, and how to mend it in one step.
//!
//! In come a fault and the text in which it was found; out come `Words`, whose place is the fault's, as
//! `specs/Places.antt` has it, and whose line begins with the file's name and that place (`specs/Lines.antt`).
//!
//! ```rust
//! let words = rx_diagnostics::books_words(alloc, fault, text)?;
//! let line = words.line(alloc, "books.txt")?;
//! ```
//!
//! The texts are for people: they quote what they found with control bytes spelled out. What is said of each fault is
//! defined in `specs/BatchTexts.antt`, `BooksTexts.antt` and `SheetWords.antt`, and that of a file that can't be read again
//! in the first two and `SheetTexts.antt`. Only the digits of a sheet's number with a point, and where TOML's reader stopped
//! and why, are fixed nowhere but in the tests. Numbers of faults are left to the crates that find them.
#![tactic(auto)]

mod batch;
mod batch_record;
mod books;
mod books_field;
mod books_line;
mod books_members;
mod books_order;
mod books_totals;
mod likeness;
mod looks;
mod place;
mod quoting;
mod sheet;
mod sheet_drugs;
mod sheet_keys;
mod sheet_lines;
mod sheet_names;
mod sheet_places;
mod sheet_values;
mod words;

pub use batch::{batch_words, unread_batch_words};
pub use books::{books_words, unread_books_words};
pub use likeness::nearest;
pub use place::Place;
pub use quoting::quoted;
pub use sheet::{sheet_words, unread_sheet_words};
pub use sheet_keys::{SHEET_KEYS, is_among};
pub use words::Words;
