//! The books of a ledger one by one: the book of a family, which keeps its totals, the book of a fill key, and the places
//! in which they stand or from which they are out.
//!
//! In come members and rows of one family; out come its book, and the totals of its members and of itself without a walk
//! over the rows.
//!
//! ```rust
//! let mut book = Family::new(alloc, family, period);
//! book.add_member(member)?;
//! book.add(row)?;
//! let used = book.deductible(&person);
//! ```
//!
//! What a book of a ledger is stands in `specs/Books.antt`, what a family's book keeps in `specs/FamilyBook.antt`. What the
//! books in some places are worth next to a ledger, and when they agree, stands in `specs/Shelves.antt`; the ledger that
//! they make together in `specs/Amended.antt`.
#![tactic(auto)]

mod among;
mod family;
mod key_book;
mod place;
mod totals;

pub use among::is_among;
pub use family::Family;
pub use key_book::KeyBook;
pub use place::{FamilyPlace, KeyPlace};
pub use totals::FamilyTotals;
