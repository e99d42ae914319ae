//! Command words: what the program `rxbatch` is asked to do.
//!
//! In come the words of the command line, the program's name first; out comes a `Command`, one of the
//! subcommands with the values of its options, or a `WordsFault`, whose `Display` is the text for standard error.
//! The words are read by `clap`; what they hold is defined in `specs/` over `clap`'s own matches: `Syntax` has the
//! command line, `Asked` what a command holds of the matches.
//!
//! ```rust
//! let words = ["rxbatch", "show", "--sheet", "sheet.toml", "--batch", "batch.bin"];
//! match rx_cli::command(alloc, words.as_slice()) {
//!     Ok(Command::Show(show)) => ..,
//!     Err(fault) => eprint!(rt; "{fault}")?,
//!     ..
//! }
//! ```
//!
//! The files of a command stand in `rx_io`'s `Inputs` and `Outputs`, each by its path. No file is opened here, and what a
//! path names isn't looked at: paths are compared as texts.
#![tactic(auto)]

mod argument;
mod asked;
mod compare_options;
mod dispute;
mod dispute_syntax;
mod dispute_words;
mod draft;
mod fault;
mod given;
mod misuse;
mod options;
mod paths;
mod people;
mod people_syntax;
mod people_words;
mod retrace;
mod retrace_options;
mod settle_options;
mod switch;
mod switch_options;
mod switch_syntax;
mod syntax;
mod upkeep;
mod upkeep_options;
mod upkeep_syntax;
mod words;

pub use asked::{Command, RunWords, ShowWords};
pub use compare_options::{CompareForm, CompareWords};
pub use dispute::ExcerptWords;
pub use fault::WordsFault;
pub use given::{CheckWords, ComparedFiles, GivenInputs};
pub use people::{AdjudicateWords, FaultNumbers};
pub use retrace::{Asked, ExplainWords, Form, Portion, ReportWords, VerifyWords};
pub use settle_options::SettleWords;
pub use switch::{JoinWords, RouteWords, SwitchFiles};
pub use syntax::VERSION;
pub use upkeep::{AgeWords, FamilyForm, FamilyWords, MembersWords, Origin, Percent};
pub use words::command;
