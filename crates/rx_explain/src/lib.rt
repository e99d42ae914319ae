//! A claim retraced: why a transaction of a batch was answered as it was, as values.
//!
//! In come a transaction with its place and the plan sheet (`Subject`), and what answers as the ledger before it; out come
//! the `Facts`: its decision by the tables of adjudication, with what decided. Once the batch is adjudicated,
//! what it changed (`Events`) makes of them the `Explanation`: where each standing claim that mattered came from, and what
//! became of it. What an explanation says is in `specs/Explained.antt`.
//!
//! ```rust
//! let facts = rx_explain::explain_next(alloc, &subject, &mut ledger, &rows)?;
//! let explanation = facts.traced(alloc, &events)?;
//! ```
//!
//! The replay that gives replies and ledger is left to the caller, and so are words for people.
#![tactic(auto)]

mod advance;
mod at;
mod events;
mod explanation;
mod facts;
mod family;
mod finding;
mod law;
mod open_from;
mod part;
mod seen;
mod spot;
mod subject;
mod traced;
mod visible;
mod workings;

pub use advance::explain_next;
pub use at::{At, place_at};
pub use events::{Change, Event, Events};
pub use explanation::Explanation;
pub use facts::Facts;
pub use finding::{Query, find};
pub use law::{
    others_names_decide_nothing, others_stay_unnamed, reply_is_shown, sources_are_true,
    steps_lead_to_the_answer, sums_are_of_counted_rows,
};
pub use spot::item;
pub use subject::Subject;
pub use traced::{Source, Traced};
pub use workings::Workings;
