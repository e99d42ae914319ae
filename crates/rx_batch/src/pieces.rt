ghost use Rattle.std.specs.Prelude.{◌≡◌, ◌++◌, [], ℕ, List, None, IfSome, Err};
ghost use Rattle.rx_batch.specs.Fault.{Gives};
ghost use Rattle.rx_batch.specs.Pieces.{StandsFor, answer_of};
ghost use Rattle.rx_batch.specs.Reading.{batch_of};

use crate::batch::Batch;
use crate::fault::BatchFault;
use crate::reader::Reader;
use std::alloc::Global;
use std::marker::Model;

/// A batch file that comes in pieces, cut anywhere (docs/FORMATS.md, "Batch file").
///
/// It keeps the head, the details and the record that was begun, and no other byte of the text.
#[derive(Drop)]
pub struct Pieces {
    alloc: Global,
    reader: Reader,
    fault: Option<BatchFault>,
}

impl Model for Pieces {
    ghost use Rattle.rx_batch.specs.Pieces.{Fed};

    ghost Value = { Fed };

    ghost view = { λ p. record { reader = p.reader; fault = p.fault } };
}

impl Pieces {
    /// No piece yet.
    pub fn new(alloc: Global) -> Pieces
        ensures text { StandsFor result [] }
        ensures value { result.fault ≡ None }
    {
        Pieces {
            alloc,
            reader: Reader::new(alloc),
            fault: None,
        }
    }

    /// Takes the next piece. A fault is that of the joined pieces, whatever follows; each later call answers it too.
    pub fn feed(&mut self, piece: &[u8]) -> Result<(), BatchFault>
        ensures text { (text : List ℕ) → StandsFor self.old text → StandsFor self.new (text ++ piece.now) }
        ensures value { result ≡ answer_of self.new.fault }
        ensures same { IfSome self.old.fault (λ f. result ≡ Err f) }
    {
        if let Some(fault) = self.fault {
            return Err(fault);
        }
        let outcome = self.reader.read(self.alloc, piece);
        self.fault = outcome.err();
        outcome
    }

    /// The batch of the joined pieces, or the first fault.
    pub fn finish(self) -> Result<Batch, BatchFault>
        ensures value { (text : List ℕ) → StandsFor self text → Gives result (batch_of text) }
        ensures same { IfSome self.fault (λ f. result ≡ Err f) }
    {
        let Pieces {
            alloc: _,
            reader,
            fault,
        } = self;
        match fault {
            Some(fault) => Err(fault),
            None => reader.end(),
        }
    }
}
