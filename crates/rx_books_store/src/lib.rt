//! Books that keep their totals: a ledger, with the deductible of each member and the figures of each family stored
//! next to the rows that they are the sums of (docs/RULES.md, "Accumulators").
//!
//! In comes the text of a books file, or a plain `Ledger` with the period that the totals are of; out come the row
//! under a fill key and the totals of a member and a family, by look-ups that walk no rows, the plain ledger again, and
//! the one text of version 3. For a batch the books are opened: a slot is kept for each fill key that it can touch, and
//! rows are written into their slots and taken out of them without memory.
//!
//! ```rust
//! let books = Books::read(alloc, bytes)?;
//! let used = books.deductible(&family, &person);
//! ```
//!
//! The lists that books were made from never change, and copies share them. Over them stand the slots: what stands now is
//! the opening rows with what each slot holds (`specs/Store.antt`). Where a shelf was given books with other members than
//! these, its own places stand instead (`specs/WholeBooks.antt`).
//!
//! - `books`: `Books`, in one of two forms; `open_books`: `OpenBooks`, with the members, families and slots at their places
//! - `plain`, `copying`: books of the first form made of a ledger, copied and compared; `figures`, `amounts`, `sums`, `opening_sums`: their
//!   totals
//! - `opening`: the lists that books were made from, and `kept`: the text that they were read from; `read_claims`: its lines
//! - `holders`, `hints`, `search`: where members and rows are in these lists
//! - `slot`, `slots`: what stands under a fill key of the batch; `standing`: a pass over the rows that stand
//! - `looks`: at what is asked for soon; `taking`: what stands under fill keys in other open books, taken over
//! - `amended`, `whole`, `amended_lists`, `comparison`: books of the second form; `lent`: either form, opened for reading
//! - `reader`, `writing`, `writer`, `patching`, `parts`: the text, on one thread and in parts
//! - `law`: that a text has one reading, and that members and rows determine a ledger
//!
//! What a books file is, and which fault a text has that is none, stands in `specs/BooksFile.antt`; what a total is in
//! `rx_ledger`'s `specs/Sums.antt`, what a line is in `rx_books_text`'s `specs/`. Which claims are added and taken out
//! is left to the crates above.
#![tactic(auto)]

mod amended;
mod amended_lists;
mod amounts;
mod books;
mod comparison;
mod copying;
mod figures;
mod hints;
mod holders;
mod kept;
mod law;
mod lent;
mod looks;
mod open_books;
mod opening;
mod opening_sums;
mod parts;
mod patching;
mod plain;
mod read_claims;
mod reader;
mod search;
mod slot;
mod slots;
mod standing;
mod sums;
mod taking;
mod whole;
mod writer;
mod writing;

pub use books::Books;
pub use law::{one_reading, told_by_rows};
pub use lent::Lent;
pub use open_books::OpenBooks;
pub use read_claims::ReadClaims;
pub use standing::Standing;
