//! A report in aligned columns and as an HTML page for people, and as JSON for programs.
//!
//! In comes an account (`rx_report`); out comes its text. For people amounts are in dollars and cents, and no byte is
//! written that a terminal, or a page, takes for more than text; in JSON they are in cents. What stands for an answer in
//! each column is in `specs/Shown.antt`.
//!
//! ```rust
//! let text = rx_report_text::columns_text(alloc, stamp, portion, &account)?;
//! let page = rx_report_text::explained_page(alloc, head, portion, &account, &whys)?;
//! let pages = rx_report_text::folder_pages(alloc, head, &account, portion, &whys)?;
//! ```
//!
//! The page takes nothing from outside: no font, no picture, and no script but its own, which is fixed text. It has its
//! origin (`specs/Origin.antt`), what all comes to (`specs/Summary.antt`), each reject code with its answers
//! (`specs/Rejects.antt`), a table of providers with a bar for each net (`specs/Providers.antt`), and each provider's claims
//! (`specs/Claims.antt`), a row each (`specs/Rows.antt`) that unfolds to its figures and to why they are so
//! (`specs/Reasons.antt`). It is written in only two ways: by markup that stands in this crate, and by bytes that `rx_print`
//! turns into text (`specs/Pages.antt`). A folder has a page for each provider and one that leads to them
//! (`specs/Folder.antt`).
//!
//! Nothing is explained here: `shows_claims` says whether a page has claims, and why they were answered so is given to it.
#![tactic(auto)]

mod claims;
mod columns;
mod folder;
mod html;
mod json;
mod laws;
mod layout;
mod money;
mod origin;
mod providers;
mod reasons;
mod rejects;
mod row;
mod script;
mod shown;
mod stamp;
mod style;
mod summary;
mod whole;
mod why;
mod wide;

pub use columns::columns_text;
pub use folder::{PageFile, folder_pages};
pub use json::account_json;
pub use laws::account_reads_as_json;
pub use money::{put_net, put_net_cents};
pub use origin::{InputFile, Origin, PageHead, put_file, put_term};
pub use script::POLICY;
pub use shown::{COLUMNS, Shown, shown_cell};
pub use style::STYLE;
pub use whole::{MOST_LINES, explained_page, report_page, shows_claims};
pub use why::{AnswerSpot, Why, Whys, why_of};
