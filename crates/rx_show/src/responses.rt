ghost use Rattle.std.specs.Prelude.{◌≡◌, IfErr, IfOk, Err};
ghost use Rattle.rx_batch.specs.Fault.{UnlessMemory};
ghost use Rattle.rx_show.specs.ResponseFile.{response_of};
ghost use Rattle.rx_show.specs.Responses.{AreLinesOf};

mod file;
mod found;
mod lines;

pub use file::read_response;
pub use found::{Found, find_replies};
pub use lines::reply_lines;
use rx_batch::BatchFault;
use std::alloc::Global;

/// What `replies` prints of a response file: a line for each answer, one for a rejected header, and one for a detail
/// that holds no reply (docs/CLI.md, "replies").
///
/// # Errors
///
/// The first fault of the file, as of a batch file, with its place in bytes; Memory.
pub fn replies_text(alloc: Global, bytes: &[u8]) -> Result<Vec<u8>, BatchFault>
    ensures shown { IfOk result (λ text. AreLinesOf bytes.now text.items) }
    ensures refused { IfErr result (λ fault. UnlessMemory fault (response_of bytes.now ≡ Err fault)) }
{
    let batch = read_response(alloc, bytes)?;
    let Ok(found) = find_replies(alloc, batch.details.as_slice()) else {
        return Err(BatchFault::Memory);
    };
    match reply_lines(alloc, &found) {
        Ok(text) => Ok(text),
        Err(_) => Err(BatchFault::Memory),
    }
}
