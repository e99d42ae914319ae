//! Batch and response files as a person reads them.
//!
//! In come a batch's decoded transmissions, in file order; `show_lines` writes a line for each of their transactions, as
//! `specs/Lines.antt` has it, and `show_table` a row of a table, as `specs/Table.antt` has it. No id holds a tab, so that a
//! row can always be cut back into its cells. Reading the batch and decoding its details is left to the caller.
//!
//! `replies_text` reads a response file back and writes a line for each answer: `specs/ResponseFile.antt` says which texts
//! are response files, `specs/ReplyLines.antt` what is printed of them. Whether the replies are the right ones is left to a
//! run on the inputs.
//!
//! ```rust
//! let text = rx_show::show_lines(alloc, &transmissions)?;
//! let replies = rx_show::replies_text(alloc, bytes)?;
//! ```
//!
//! `plan_lines` writes the lines of the command `plan`. `sample_line` is the reply to the base claim under the plain sheet
//! and the opening books, all of them fixed (`specs/Sample.antt`, docs/FORMATS.md, "Fixed inputs"), as the command `sample`
//! prints it.
#![tactic(auto)]

mod bytes;
mod lines;
mod plan;
mod responses;
mod sample;
mod sample_inputs;
mod table;

pub use lines::show_lines;
pub use plan::plan_lines;
pub use responses::{Found, find_replies, read_response, replies_text, reply_lines};
pub use sample::sample_line;
pub use table::show_table;
