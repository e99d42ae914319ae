ghost use Rattle.std.specs.Prelude.{◌≡◌, Ok, IfOk, IfErr};
ghost use Rattle.rx_batch.specs.Fault.{Gives, UnlessMemory};
ghost use Rattle.rx_batch.specs.Grammar.{IsFile};
ghost use Rattle.rx_batch.specs.Reading.{HasFault, batch_of};

use crate::batch::Batch;
use crate::fault::BatchFault;
use crate::pieces::Pieces;
use std::alloc::Global;

/// The batch of a whole file, or its first fault (docs/FORMATS.md, "Batch file").
pub fn read_batch(alloc: Global, bytes: &[u8]) -> Result<Batch, BatchFault>
    ensures ok { IfOk result (λ batch. IsFile bytes.now batch.head batch.details) }
    // A file is read as its batch, unless memory ran out.
    ensures reads { (batch : Batch) → IsFile bytes.now batch.head batch.details → Gives result (Ok batch) }
    // A fault is that of what follows the longest good front.
    ensures refuses { IfErr result (λ fault. UnlessMemory fault (HasFault bytes.now fault)) }
    // The same, computed.
    ensures value { Gives result (batch_of bytes.now) }
{
    let mut pieces = Pieces::new(alloc);
    pieces.feed(bytes)?;
    pieces.finish()
}
