//! What is done to books between two runs: members are loaded, and old claims leave.
//!
//! In come the text of books, and a table of members or a day; out comes the text of books again, and what the call did to
//! them. Which batches are answered as before stands in two laws (`law_of_loading`, `law_of_ageing`).
//!
//! ```rust
//! let done = rx_books_upkeep::members_text(alloc, books, table)?;
//! let aged = rx_books_upkeep::age_text(alloc, &done.books, before, None, 75)?;
//! ```
//!
//! What loading makes of books stands in `specs/Loading.antt`, what ageing does in `specs/Ageing.antt`, a members table in
//! `specs/Table.antt`, and the texts in `specs/Texts.antt`.
#![tactic(auto)]

mod aged_text;
mod ageing;
mod change;
mod cut_claims;
mod families;
mod figured;
mod law;
mod loaded_text;
mod merging;
mod quick_table;
mod report;
mod safe_day;
mod table;
mod table_fault;
mod table_line;
mod text_fault;
mod texts;

pub use change::{Change, Loaded, MemberChange};
pub use law::{law_of_ageing, law_of_loading};
pub use report::changes_text;
pub use table::read_members;
pub use table_fault::{TableFault, Wrong};
pub use text_fault::UpkeepFault;
pub use texts::{AgedText, MembersText, age_text, founded_text, members_text};
