ghost use Rattle.std.specs.Prelude.{◌≡◌, ◌++◌, Ok};
ghost use Rattle.rx_batch.specs.Fault.{Takes};
ghost use Rattle.rx_batch.specs.Grammar.{past, with_header, with_detail, with_trailer, record_of, no_front};
ghost use Rattle.rx_batch.specs.Reading.{is_whole, stray, ended};

use crate::batch::Batch;
use crate::detail::{Details, Text};
use crate::fault::BatchFault;
use crate::head::Head;
use crate::record;
use std::alloc::Global;

/// How far a batch file was read: no record, the header, or the trailer too.
#[derive(Clone, Copy)]
pub enum Stage {
    Start,
    Headed(Head),
    Whole(Head),
}

/// What was read of a good front: a start of a file that is made of skipped bytes and whole good records.
#[derive(Drop)]
pub struct Front {
    pub stage: Stage,
    pub details: Details,
    /// How many bytes the front has.
    pub length: u64,
}

impl Front {
    // The front before the first byte.
    pub(crate) fn new(alloc: Global) -> Front
        ensures { result ≡ no_front }
    {
        Front {
            stage: Stage::Start,
            details: Details::new(Vec::new(alloc)),
            length: 0,
        }
    }

    // Whether the trailer was read.
    pub(crate) fn is_whole(&self) -> bool
        ensures { result ≡ is_whole self.now.stage }
    {
        match self.stage {
            Stage::Whole(_) => true,
            _ => false,
        }
    }

    // The fault of a byte that begins no record.
    pub(crate) fn stray(&self) -> BatchFault
        ensures { result ≡ stray self.now }
    {
        if self.is_whole() {
            BatchFault::AfterTrailer { at: self.length }
        } else {
            BatchFault::Outside { at: self.length }
        }
    }

    // The batch, where the text ends with the front.
    pub(crate) fn end(self) -> Result<Batch, BatchFault>
        ensures { result ≡ ended self }
    {
        let Front {
            stage,
            details,
            length,
        } = self;
        match stage {
            Stage::Start => Err(BatchFault::NoHeader { at: length }),
            Stage::Headed(_) => Err(BatchFault::NoTrailer { at: length }),
            Stage::Whole(head) => Ok(Batch { head, details }),
        }
    }

    // Makes the front longer by some bytes. A length of 2^64 bytes counts as out of memory.
    pub(crate) fn pass(&mut self, bytes: usize) -> Result<(), BatchFault>
        ensures { Takes result self.new (Ok (past bytes self.old)) }
    {
        match self.length.checked_add(bytes as u64) {
            Some(length) => {
                self.length = length;
                Ok(())
            }
            None => Err(BatchFault::Memory),
        }
    }

    // Takes the record of these bytes between STX and ETX.
    pub(crate) fn record(&mut self, alloc: Global, body: &[u8]) -> Result<(), BatchFault>
        ensures { Takes result self.new (record_of self.old body.now) }
    {
        match self.stage {
            Stage::Start => self.header(body),
            Stage::Headed(head) => {
                if body.starts_with(b"G1") {
                    self.detail(alloc, body)
                } else if body.starts_with(b"99") {
                    self.trailer(head, body)
                } else {
                    Err(BatchFault::RecordKind { at: self.length })
                }
            }
            Stage::Whole(_) => Err(BatchFault::AfterTrailer { at: self.length }),
        }
    }

    // Takes the record whose bytes between STX and ETX came in two parts.
    pub(crate) fn joined_record(
        &mut self,
        alloc: Global,
        mut body: Text,
        end: &[u8],
    ) -> Result<(), BatchFault>
        ensures { Takes result self.new (record_of self.old (body ++ end.now)) }
    {
        if body.is_empty() {
            return self.record(alloc, end);
        }
        body.extend(end)?;
        self.record(alloc, body.bytes())
    }

    fn header(&mut self, body: &[u8]) -> Result<(), BatchFault>
        ensures { Takes result self.new (with_header self.old body.now) }
    {
        let head = record::header(self.length, body)?;
        self.stage = Stage::Headed(head);
        self.pass(body.len() + 2)
    }

    fn detail(&mut self, alloc: Global, body: &[u8]) -> Result<(), BatchFault>
        ensures { Takes result self.new (with_detail self.old body.now) }
    {
        let detail = record::detail(alloc, self.length, self.details.as_slice(), body)?;
        self.details.push(detail)?;
        self.pass(body.len() + 2)
    }

    fn trailer(&mut self, head: Head, body: &[u8]) -> Result<(), BatchFault>
        ensures { Takes result self.new (with_trailer self.old head body.now) }
    {
        record::trailer(self.length, &head, self.details.as_slice(), body)?;
        self.stage = Stage::Whole(head);
        self.pass(body.len() + 2)
    }
}
