//! A batch replayed: the replies to its records, and explanations of any of its transactions.
//!
//! In come the opening books and what a batch asks; out come the replies to it, with explanations of the records at some
//! places (`replay`), or, once the replies are known, explanations of transactions in the order of the batch, in one pass
//! over it, all at once (`explanations`) or one after another (`Pass`). What an explanation says is in `rx_explain`; what a
//! record is explained on is the books themselves, as they are when its turn comes.
//!
//! ```rust
//! let replayed = replay(alloc, batch, &places)?;
//! let explanations = explanations(alloc, &adjudicated, &places)?;
//! ```
//!
//! Which transactions are asked for is left to the caller, and so are words for people.

mod batch;
mod before;
mod course;
mod explaining;
mod record;
mod replaying;

pub use batch::{Adjudicated, Batch};
pub use before::books_after;
pub use explaining::{Pass, explain_each, explanations, traced};
pub use replaying::{Explained, Replayed, replay};
