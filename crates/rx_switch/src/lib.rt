//! The whole run of a batch: from plan sheet, opening books and batch file to response file, end books and settlement.
//!
//! In come the three texts, as bytes or from devices that are read to their ends; out come the texts of adjudicating
//! the records one after another in file order, or the first refusal. What a run gives is in `specs/Output.antt`, what
//! a run on devices read and wrote in `specs/Devices.antt`.
//!
//! ```rust
//! let output = rx_switch::run(rt, alloc, &NoGate, &job)?;
//! let line = rx_switch::told(&fault).numbers;
//! ```
//!
//! The words of a command line and the files themselves are left to the program.
#![tactic(auto)]

mod accepting;
mod adjudicating;
mod dealt_records;
mod fault;
mod finished_plans;
mod inputs;
mod job;
mod join_doors;
mod join_fault;
mod join_job;
mod join_law;
mod joined_files;
mod joining;
mod law;
mod may_reply;
mod on_devices;
mod open_plans;
mod outputs;
mod plan;
mod plans_beside;
mod route_fault;
mod route_job;
mod route_law;
mod running;
mod several_plans;
mod show;
mod telling;

pub use fault::{IoFault, SwitchFault, Told};
pub use inputs::read_all;
pub use job::{Job, Output};
pub use join_fault::JoinFault;
pub use join_job::{JoinJob, JoinOutput, PlanResponse};
pub use join_law::law_of_join;
pub use joining::join;
pub use law::one_output;
pub use on_devices::run_io;
pub use plan::plan_text;
pub use route_fault::RouteFault;
pub use route_job::{PlanJob, PlanOutput, RouteJob, RouteOutput};
pub use route_law::{law_of_one_route, law_of_own_records, law_of_route, law_of_runs};
pub use running::run;
pub use rx_batch::BatchFault;
pub use rx_books_text::BooksFault;
pub use rx_io::{Device, Failed, Inputs, Outputs, ReaderSource, Sink, Source, WriterSink};
pub use rx_ledger::SheetKey;
pub use rx_sheet::SheetFault;
pub use rx_show::sample_line;
pub use rx_wave::{Deal, Gate, NoGate};
pub use several_plans::route;
pub use show::show_text;
pub use telling::told;
