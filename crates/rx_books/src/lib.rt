//! The books: members and standing claims with their totals, read, kept and written, opened for a batch, and split into
//! parcels.
//!
//! `Books` and `OpenBooks` are those of `rx_books_store`; `Family` and `KeyBook` those of `rx_books_family`; `Footprint` and
//! `Parcel` those of `rx_books_parcel`; `Shelf` is that of `rx_books_shelf`, `BooksFault` that of `rx_books_text`. The rows and
//! members in them are those of `rx_ledger`, with the types of `rx_fields`.
//!
//! ```rust
//! let books = rx_books::Books::read(alloc, text)?;
//! let text = books.write(alloc)?;
//! ```
#![tactic(auto)]

pub use rx_books_family::{Family, KeyBook};
pub use rx_books_parcel::{Footprint, Parcel};
pub use rx_books_shelf::{GiveFault, Shelf, TakeFault};
pub use rx_books_store::{Books, Lent, OpenBooks, Standing};
pub use rx_books_text::BooksFault;
pub use rx_d0_values::Amounts;
pub use rx_fields::{
    Authorization, Day, Days, Id, Key, Memory, Period, Person, Product, Provider, Quantity,
    Reference, date_read,
};
pub use rx_ledger::{AddError, Ledger, Member, MemberKey, Row};
pub use rx_sorted::Few;
