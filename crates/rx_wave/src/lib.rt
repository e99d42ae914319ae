//! The workers of a run: the gate that they pass, requests decoded side by side, and records adjudicated in file order.
//!
//! In come the details of a batch and the plan's door; out come their transmissions, in file order, whatever the
//! number of threads. `specs/Decoding.antt` says which. Then in come books and transmissions, and out come the books
//! after them with a reply to each, as `rx_ledger`'s fold gives them. A `Gate` sees each worker start and each record
//! pass; a run that nobody watches takes `NoGate`.
//!
//! ```rust
//! let transmissions = rx_wave::decode_all(&rt, alloc, &sheet.door(), batch.details.as_slice())?;
//! let finished = rx_wave::run_one(alloc, &NoGate, lot, &sheet, &books, &transmissions)?;
//! ```
//!
//! What a request means is left to `rx_d0_request`.
#![tactic(auto)]

mod counter;
mod decoding;
mod gate;
mod in_order;
mod job;
mod joined;
mod names;
mod run_fault;
mod shard;
mod spread;
mod workers;

pub use decoding::{decode_all, decode_for_plans, decode_in_parts};
pub use gate::{Deal, Gate, NoGate};
pub use in_order::{run_one, run_one_on};
pub use joined::replies_in_order;
pub use run_fault::RunFault;
pub use rx_serial::Finished;
pub use shard::run_places;
pub use workers::run_waves;
