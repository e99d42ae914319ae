//! The plan sheet's text: what a pharmacy plan pays, read from TOML.
//!
//! In come the bytes of a sheet; out comes the `Sheet` of `rx_ledger`, or the first fault by the keys' numbers. What a
//! text stands for is defined in `specs/SheetText.antt`, over the tree that `toml` reads: `Figures` has keys 1 to 9 and
//! 14, `Drugs` the tiers and drugs, `Values` what one value stands for, `Names` how the keys are written.
//!
//! ```rust
//! match rx_sheet::read_sheet(alloc, text) {
//!     Ok(sheet) => show(sheet.period()),
//!     Err(fault) => refuse(fault.code(), fault.key()),
//! }
//! ```
//!
//! Keys that the sheet doesn't know are skipped. What the figures and drugs mean is left to `rx_ledger`.
#![tactic(auto)]

mod drugs;
mod fault;
mod figures;
mod law;
mod names;
mod plan_files;
mod plan_key;
mod plans;
mod plans_fault;
mod sheet_text;
mod values;

pub use fault::SheetFault;
pub use law::one_reading;
pub use plan_files::PlanFiles;
pub use plan_key::PlanKey;
pub use plans::read_plans;
pub use plans_fault::PlansFault;
pub use sheet_text::read_sheet;
