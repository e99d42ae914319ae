ghost use Rattle.std.specs.Prelude.{◌≡◌, ◌++◌, IfErr, IfOk, Ok};
ghost use Rattle.rx_batch.specs.Fault.{Gives, UnlessMemory};
ghost use Rattle.rx_batch.specs.Reading.{HasFault, batch_of};
ghost use Rattle.rx_show.specs.ResponseFile.{IsResponse, as_batch, exchanged, exchanged_in, response_of};

use rx_batch::{Batch, BatchFault, Head, Kind, Pieces};
use rx_text::line_ends;
use std::alloc::Global;

/// The records of a response file (docs/FORMATS.md, "Response file"): a file as a batch is one, but of type `R`. The
/// details hold the replies' texts, which aren't looked at.
///
/// # Errors
///
/// The first fault, as of a batch file, with its place in bytes; Memory.
pub fn read_response(alloc: Global, bytes: &[u8]) -> Result<Batch, BatchFault>
    ensures ok { IfOk result (λ batch. IsResponse bytes.now batch.head batch.details) }
    // A response file is read as its head and details, unless memory ran out.
    ensures reads { (batch : Batch) → IsResponse bytes.now batch.head batch.details → Gives result (Ok batch) }
    // A fault is that of the batch file.
    ensures refuses { IfErr result (λ fault. UnlessMemory fault (HasFault (as_batch bytes.now) fault)) }
    // The same, computed.
    ensures value { Gives result (response_of bytes.now) }
{
    let Batch { head, details } = read_exchanged(alloc, bytes)?;
    Ok(Batch {
        head: Head {
            kind: Kind::Response,
            ..head
        },
        details,
    })
}

// The batch that the text is with the type of its header exchanged.
fn read_exchanged(alloc: Global, bytes: &[u8]) -> Result<Batch, BatchFault>
    ensures { Gives result (batch_of (as_batch bytes.now)) }
{
    let (skipped, record) = bytes.split_at(line_ends(bytes));
    match record {
        [stx, first, second, kind, rest @ ..] => {
            let front = [*stx, *first, *second, exchanged(*kind)];
            read_joined(alloc, skipped, &front, rest)
        }
        _ => read_joined(alloc, skipped, record, &[]),
    }
}

// The batch of a text that comes in three pieces. A fault is kept by the pieces.
fn read_joined(
    alloc: Global,
    skipped: &[u8],
    front: &[u8],
    rest: &[u8],
) -> Result<Batch, BatchFault>
    ensures { Gives result (batch_of (skipped.now ++ front.now ++ rest.now)) }
{
    let mut pieces = Pieces::new(alloc);
    let _ = pieces.feed(skipped);
    let _ = pieces.feed(front);
    let _ = pieces.feed(rest);
    pieces.finish()
}

// `T` for `R` and `R` for `T`.
fn exchanged(kind: u8) -> u8
    ensures { result ≡ exchanged kind }
{
    match kind {
        b'R' => b'T',
        b'T' => b'R',
        other => other,
    }
}
