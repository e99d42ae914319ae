//! How a run goes: what passes through its files, the lines that report its steps, and its log.
//!
//! - A watched device (`Watched`) stays the device that it is. Besides it come out the number of bytes that went through, their SHA-256 where it
//!   is asked for, the first and the last of them, and the times of the first and the last call (`Traffic`). `RunTraffic` has that of the six
//!   files of a run, and by it how long each step took.
//! - A device may keep what passes instead (`Watched::keeping`), whose SHA-256 is then made by a thread of its own (`Summing`).
//! - `step_line`, `shards_line`, `progress_line` and `done_line` spell numbers as people read them (`specs/Lines.antt`).
//! - `log_line` is the log: one line of JSON, whose value is defined in `specs/Log.antt`. What it says of the batch and of
//!   the answers is taken from the front of the batch file (`Lot`) and from the end of the settlement (`Totals`).
//!
//! ```rust
//! let mut batch = Watched::new(ReaderSource::new(file), &rt, true);
//! let text = rx_io::read_all(alloc, &mut batch)?;
//! let digest = batch.traffic().digest()?;             // Some
//! let line = rx_run_log::step_line(alloc, &step)?;    // books        990,001 lines  78.0 MB  0.21 s
//! let line = rx_run_log::log_line(alloc, &log)?;
//! ```
//!
//! Where the lines go is the caller's to say. A sum costs about 2.5 ns a byte.
#![tactic(auto)]

mod codes_passed;
mod digit_text;
mod file_sum;
mod header;
mod json;
mod law;
mod lines;
mod log;
mod marks;
mod members;
mod numbers;
mod report;
mod run_traffic;
mod settlement;
mod sink;
mod source;
mod step;
mod sum;
mod summing;
mod times;
mod traffic;
mod watched;

pub use codes_passed::CodesPassed;
pub use file_sum::FileSum;
pub use header::Lot;
pub use json::log_line;
pub use law::{lot_is_the_headers, totals_are_the_settlements};
pub use lines::{done_line, progress_line, shards_line, step_line, totals_words};
pub use log::{CodeCount, FileLog, RunLog};
pub use marks::line_feeds_in;
pub use report::{Counted, RunReport, Shards, StepReport};
pub use run_traffic::{RunTraffic, details_in, details_passed, input_report, lines_passed};
pub use settlement::Totals;
pub use step::{Step, StepTimes};
pub use summing::Summing;
pub use times::{RunTimes, micros_between};
pub use traffic::Traffic;
pub use watched::Watched;
