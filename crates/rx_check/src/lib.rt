//! The inputs of a run looked at beforehand: the first fault of each, and warnings of what a run would take and an
//! operator would hardly mean.
//!
//! In come the texts of a plan sheet and, where they are given, of books and a batch file; out comes what `check` prints, the
//! refusal and whether there are warnings (`specs/Checked.antt`): each text is accepted, or its first fault is reported
//! (`specs/Found.antt`). The warnings of books and batch are definitions of `specs/Warned.antt`. That the first fault found
//! is the one by which a run refuses is a law (`first_fault_is_the_runs`).
//!
//! ```rust
//! let checked = rx_check::check(alloc, &files, &names)?;
//! ```
//!
//! A refusal of a run, of these inputs or another, is put in words by `fault_words`: one line, which begins at the fault's
//! place (`specs/Faults.antt`). What is said of an input is said in `rx_diagnostics`.
//!
//! ```rust
//! let line = rx_check::fault_words(alloc, fault, &run)?;
//! ```
//!
//! `Warnings::stop` says at which warnings an adjudication ends before it writes anything (`specs/Stop.antt`), and
//! `fault_numbered` which refusal three numbers are of.
//!
//! Nothing is adjudicated.
#![tactic(auto)]

mod checked;
mod fault_lines;
mod findings;
mod found;
mod ignored;
mod inputs;
mod laws;
mod numbered;
mod refusals;
mod report_lines;
mod stamp;
mod stop;
mod warned;
mod warnings;

pub use checked::{Checked, check};
pub use fault_lines::{Input, RunInputs, fault_words};
pub use findings::Files;
pub use found::{Found, InputFault};
pub use ignored::ignored_keys;
pub use laws::{faults_of_some_are_the_runs, first_fault_is_the_runs};
pub use numbered::fault_numbered;
pub use report_lines::Names;
pub use stamp::{early_stamp, stamp_line};
pub use warned::{adjudicated, feeds, has_none_under, may_pass, period_apart};
pub use warnings::Warnings;
