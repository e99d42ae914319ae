//! Batch files of pharmacy claims, read exactly where the grammar of `specs/Grammar.antt` has them, and written.
//!
//! In comes a whole file, or its pieces in any cut; out come the head and the details, or the first fault with its
//! place in bytes. The writer takes a head and details, and gives the one text that stands for them.
//!
//! ```rust
//! let batch = rx_batch::read_batch(alloc, bytes)?;
//! let text = rx_batch::write_batch(alloc, &batch.head, batch.details.as_slice())?;
//! ```
//!
//! What a detail's text means is left to the crates above.
#![tactic(auto)]

mod batch;
mod detail;
mod fault;
mod front;
mod head;
mod law;
mod layout;
mod pieces;
mod reader;
mod reading;
mod record;
mod trailer;
mod writing;

pub use batch::Batch;
pub use detail::{Detail, Details, Text};
pub use fault::BatchFault;
pub use head::{FileType, Head, Kind};
pub use law::one_reading;
pub use layout::{
    BATCH_NUMBER_AT, CREATION_DATE_AT, CREATION_TIME_AT, ETX, HEADER_LENGTH, STX, TRAILER_LENGTH,
};
pub use pieces::Pieces;
pub use reading::read_batch;
pub use writing::{begin_detail, put_header, put_trailer, write_batch};
