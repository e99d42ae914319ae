ghost use Rattle.std.specs.Prelude.{◌≡◌, ◌↔◌, ℕ, List, Ok, Err};
ghost use Rattle.rx_batch.specs.Grammar.{IsFile};
ghost use Rattle.rx_batch.specs.Reading.{HasFault, batch_of};
ghost use Rattle.rx_batch.specs.declared.batch.Batch.{Batch};
ghost use Rattle.rx_batch.specs.declared.fault.BatchFault.{BatchFault};

/// The grammar and the reading are one: a text is read as a batch exactly where it is the file of that batch, and
/// has a fault exactly where the longest good front is followed by it. So no text is two files, nor a file with a
/// fault, and each text is one of the two.
pub fn one_reading()
    ensures reads { (bytes : List ℕ) → (batch : Batch)
        → IsFile bytes batch.head batch.details ↔ (batch_of bytes ≡ Ok batch) }
    ensures refuses { (bytes : List ℕ) → (f : BatchFault) → HasFault bytes f ↔ (batch_of bytes ≡ Err f) }
{}
