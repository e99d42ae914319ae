//! The commands of the program besides `run`, each as one call: from the inputs' bytes to what is printed, and how it
//! ends.
//!
//! In come the texts of plan sheet, opening books and batch file (`rx_io::Inputs`); out comes what is asked for, or the first
//! refusal, as of a run.
//!
//! - `report` has a line for each answer of the batch, in one of the forms of `Form` (`specs/Reported.antt` has the lines,
//!   `specs/Forms.antt` the texts). `report_folder` makes pages of it, one for each provider (`specs/Folder.antt`).
//! - `report_own` is the same of the records that name the plan, in a batch of several plans (`specs/Own.antt`); what it counts is
//!   what a switch settles for this plan (`law_of_own_reports`).
//! - `explain` says why the transactions that are asked for were answered as they were (`specs/Retraced.antt` has the
//!   explanations, `specs/Explaining.antt` the text). The records are adjudicated once, in file order, and explained on the way
//!   where the requests say that a transaction is asked for. `record_asked`, `number_asked` and `reference_asked` read what
//!   is asked for.
//! - `explain_for` is the same for a pharmacy: of its own transactions, with nothing but dates and amounts of other pharmacies'
//!   claims (`specs/ForProvider.antt`). Two jobs that differ only in names of these give it one text and one
//!   report (`law`, `specs/Elsewhere.antt`).
//! - `verify` does the run again and compares the texts of an earlier one's three files with it: the files are found the same
//!   exactly where they are what the rules of docs/ make of the inputs (`specs/Verified.antt`, `specs/Verdict.antt`).
//! - `compare` says which answers another sheet or other books would change, and the difference of the nets
//!   (`specs/Differing.antt` has the answers, `specs/ComparedText.antt` the texts).
//! - `settle_cycle` has the settlement of the batches that response files answer, from nothing else (`specs/Cycle.antt`);
//!   of a run's response file it is that run's settlement (`run_settled_back`).
//! - `excerpt_record` has the inputs that one record hangs on, as a job of its own that answers it alike (`specs/Excerpts.antt`).
//! - `show_table` has the table of `show --tsv`.
//! - Module `family` shows a family of books: `show_family` (`specs/FamilyShown.antt`).
//! - Module `replay` has what `report` and `explain` stand on: a batch replayed, with explanations of any of its transactions.
//!
//! ```rust
//! let text = rx_commands::report(rt, alloc, &inputs, Portion::Whole, Form::Json, stamp_asked(None)?)?;
//! let printed = rx_commands::explain(rt, alloc, &inputs, &record_asked("4.2"), None, Manner::Words)?;
//! let printed = rx_commands::verify(rt, alloc, &NoGate, &job, &files)?;
//! ```
//!
//! Two texts are compared by `first_difference`; `pieces_before` and `rest_of_piece` say in which line or record a place
//! stands, and what stands there (`specs/Difference.antt`).
//!
//! The words of a command line and the files themselves are left to the program.
#![tactic(auto)]

mod asked_words;
mod batch_report;
mod comparing;
mod cycle;
mod difference;
mod excerpts;
mod explain_fault;
mod explanations;
pub mod family;
mod folder;
mod for_provider;
mod inputs;
mod law;
mod manner;
mod own_records;
mod pieces;
mod printed;
mod record_words;
pub mod replay;
mod report_forms;
mod retraced;
mod reversed;
mod table;
mod tiers;
mod verdict;
mod whys;

pub use asked_words::{
    family_asked, number_asked, provider_asked, record_asked, reference_asked, stamp_asked,
};
pub use comparing::{CompareFault, CompareForm, Others, compare};
pub use cycle::{CycleFault, run_settled_back, settle_cycle, settled_back};
pub use difference::first_difference;
pub use excerpts::{Excerpt, ExcerptFault, excerpt_record, law_of_excerpts};
pub use explain_fault::ExplainFault;
pub use explanations::explain;
pub use folder::{PrintedFolder, report_folder};
pub use for_provider::explain_for;
pub use law::{others_names_leave_the_report, others_names_leave_the_text};
pub use manner::Manner;
pub use own_records::law_of_own_reports;
pub use pieces::{pieces_before, rest_of_piece};
pub use printed::{Outcome, Printed};
pub use report_forms::{Form, PrintedReport, report, report_own};
pub use table::show_table;
pub use verdict::verify;
