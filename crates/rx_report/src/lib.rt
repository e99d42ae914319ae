//! A line for each answer of a batch, which lines a report has, and what they come to.
//!
//! In come a batch's transmissions and the replies to them, in file order; out come lines, written as a table of tabs or
//! as JSON, in one array or an object a line. `specs/Lines.antt` says which lines there are, `specs/Cells.antt` what stands in each column.
//!
//! ```rust
//! let lines = rx_report::report_lines(alloc, &transmissions, &replies)?;
//! let text = rx_report::tsv_text(alloc, lot, stamp, &lines)?;
//! ```
//!
//! Of these lines and the tallies of the batch's settlement an account is made: sections, each a provider with its tally
//! and its lines, and the tally of all. Of a whole batch and of one provider the tallies are the settlement's; of a
//! family they are those of its lines. `specs/Accounts.antt` says both. `by_net` sorts its sections (`specs/ByNet.antt`).
//!
//! ```rust
//! let kept = rx_report::kept_lines(alloc, portion, &lines)?;
//! let groups = Groups::new(alloc, &kept)?;
//! let account = rx_report::account_of(alloc, portion, &settled, &kept, &groups)?;
//! ```
//!
//! Whoever reads a line's amounts has the settlement's: the answers of the lines are those that it counts. The
//! adjudication is left to the crates below; how an account looks, to those that write it.
#![tactic(auto)]

mod accounting;
mod cells;
mod claims;
mod column;
mod groups;
mod laws;
mod line;
mod lines;
mod net_order;
mod portion;
mod section;
mod tallying;
mod texts;

pub use accounting::account_of;
pub use cells::{cents_of, put_cell};
pub use claims::{claims_json, put_batch, put_lot};
pub use column::Column;
pub use groups::Groups;
pub use laws::{accounts_add_up, claims_read_as_json, lines_read_as_json, sections_have_own_lines};
pub use line::{Dispensed, Line};
pub use lines::report_lines;
pub use net_order::by_net;
pub use portion::{Portion, kept_lines};
pub use section::{Account, Section};
pub use texts::{
    put_cells, put_lines_json, put_member, put_members, put_names, put_quoted, tsv_text,
};
