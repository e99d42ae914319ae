//! The rules of adjudication over plain lists: the meaning that every faster body is proved to have.
//!
//! In come a plan `Sheet`, a `Ledger` of members and standing claims, and a batch's transmissions; out come the
//! ledger after them and a reply to each, as adjudicating one record after another in file order gives them. What
//! that is stands in `specs/`: `Ledger`, `Sums`, `Price`, `Share`, `Decisions`, `Answers` and `Fold`, a subject each.
//!
//! ```rust
//! let (after, replies) = rx_ledger::plain_run(alloc, lot, &sheet, &before, &transmissions)?;
//! ```
//!
//! `plain_run` sums anew at each transaction and is slow. Stored totals and several workers are left to the crates
//! above, which answer by the same call: `answer_record`, on whatever answers as a ledger does (`Basis`).
#![tactic(auto)]

mod basis;
mod bounds;
mod counted;
mod decision;
mod drug;
mod family;
mod figures;
mod fold;
mod law;
mod ledger;
mod member;
mod occasion;
mod plain;
mod price;
mod refill;
mod reply;
mod row;
mod share;
mod sheet;
mod sheet_key;
mod step;
mod sums;
mod table;
mod terms;

pub use basis::Basis;
pub use bounds::accumulators_stay_within;
pub use counted::{Counted, counted_in};
pub use decision::{Decision, Payment};
pub use drug::{Drug, MOST_PRICE, Share};
pub use figures::{Figures, MOST_LIMIT};
pub use fold::plain_run;
pub use law::adjudication_keeps;
pub use ledger::{AddError, Ledger};
pub use member::{Member, MemberKey};
pub use occasion::Occasion;
pub use price::{Allowance, cost_of};
pub use refill::{has_days_left, is_too_soon};
pub use reply::answer_record;
pub use row::Row;
pub use share::{Used, left, shared, under_deductible};
pub use sheet::{AddFault, Listed, Sheet};
pub use sheet_key::{SheetKey, Wrong};
pub use sums::used_by;
pub use table::decide;
pub use terms::Terms;
