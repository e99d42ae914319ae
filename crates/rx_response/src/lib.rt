//! Response files: the replies to a batch's details, under the details' references.
//!
//! In come the header and the details of a batch, the stamp of the run and a reply to each detail; out comes the text of
//! the response file, defined in `specs/Response.antt`. The replies are rendered in several threads, in pieces that stand in
//! file order, so that the text is the same for any number of processors.
//!
//! ```rust
//! let text = rx_response::response_file(rt, alloc, &batch.head, stamp, batch.details.as_slice(), replies.as_slice())?;
//! ```
//!
//! What is replied is left to the crates that adjudicate; the settlement is written elsewhere.
#![tactic(auto)]

mod response;

pub use response::{response_file, response_pieces};
