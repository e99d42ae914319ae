//! Settlements: what a batch's replies come to, for each pharmacy and over all.
//!
//! In come the lot and the stamp of a run and its replies in file order; out comes the settlement file: a head line,
//! a line per pharmacy in order of first appearance, a total line. What each line says is defined in `specs/` over
//! the replies filtered by pharmacy: `Answers`, `Providers` and `Settlement`.
//!
//! ```rust
//! let text = rx_settle::settle(alloc, lot, stamp, replies.as_slice())?;
//! ```
//!
//! `settle_together` has several batches in one settlement, `settle_provider` the line of one pharmacy, and `tally_replies`
//! the same counts as numbers. The counts of several batches are the sums of theirs (`batches_add_up`).
//!
//! Which answer a transaction gets is left to the crates below; the response file is written elsewhere.
#![tactic(auto)]

mod batch_run;
mod lines;
mod one_provider;
mod provider;
mod settlement;
mod tally;

pub use batch_run::BatchRun;
pub use one_provider::{batches_add_up, settle_provider};
pub use provider::{Field, known_or_blank, names_provider};
pub use settlement::{ByProvider, Settled, settle, settle_together, tally_replies};
pub use tally::Tally;
