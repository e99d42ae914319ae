ghost use Rattle.std.specs.Prelude.{◌≡◌};
ghost use Rattle.rx_batch.specs.Fault.{code_of, place_of};

use std::alloc::{AllocError, AllocFailed};

/// Why a text isn't a batch file: the first fault in file order, and of one record the first that holds
/// (docs/FORMATS.md, "Batch file"). `at` is its place: the number of bytes before it.
#[derive(Clone, Copy, Debug, PartialEq, Eq)]
pub enum BatchFault {
    /// A byte other than CR, LF or STX stands where a record could begin.
    Outside { at: u64 },
    /// The first record doesn't begin `00`, or the text ends before it.
    NoHeader { at: u64 },
    /// A field of the header isn't as the standard has it, or the header isn't 75 bytes long.
    HeaderShape { at: u64 },
    /// Another STX, or the end of the text, comes before the record's ETX.
    Unclosed { at: u64 },
    /// A record after the header begins neither `G1` nor `99`.
    RecordKind { at: u64 },
    /// A detail has fewer than ten bytes of reference.
    DetailShape { at: u64 },
    /// The trailer's numbers aren't digits, or its message has more than 35 bytes.
    TrailerShape { at: u64 },
    /// The text ends before a trailer.
    NoTrailer { at: u64 },
    /// The trailer's batch number isn't the header's.
    NumberDiffers { at: u64 },
    /// The trailer's count is neither the number of details nor that number plus two.
    CountDiffers { at: u64 },
    /// A byte other than CR or LF follows the trailer.
    AfterTrailer { at: u64 },
    /// This is the 100,001st detail.
    TooMuch { at: u64 },
    /// Out of memory, or the text is longer than any memory: 2^64 bytes. No byte is to blame.
    Memory,
}

impl BatchFault {
    /// The fault's number.
    pub fn code(self) -> u32
        ensures { result ≡ code_of self }
    {
        match self {
            BatchFault::Outside { .. } => 1,
            BatchFault::NoHeader { .. } => 2,
            BatchFault::HeaderShape { .. } => 3,
            BatchFault::Unclosed { .. } => 4,
            BatchFault::RecordKind { .. } => 5,
            BatchFault::DetailShape { .. } => 6,
            BatchFault::TrailerShape { .. } => 7,
            BatchFault::NoTrailer { .. } => 8,
            BatchFault::NumberDiffers { .. } => 9,
            BatchFault::CountDiffers { .. } => 10,
            BatchFault::AfterTrailer { .. } => 11,
            BatchFault::TooMuch { .. } => 12,
            BatchFault::Memory => 13,
        }
    }

    /// The fault's place in bytes from the start of the file, which is 0; None for Memory.
    pub fn place(self) -> Option<u64>
        ensures { result ≡ place_of self }
    {
        match self {
            BatchFault::Outside { at } => Some(at),
            BatchFault::NoHeader { at } => Some(at),
            BatchFault::HeaderShape { at } => Some(at),
            BatchFault::Unclosed { at } => Some(at),
            BatchFault::RecordKind { at } => Some(at),
            BatchFault::DetailShape { at } => Some(at),
            BatchFault::TrailerShape { at } => Some(at),
            BatchFault::NoTrailer { at } => Some(at),
            BatchFault::NumberDiffers { at } => Some(at),
            BatchFault::CountDiffers { at } => Some(at),
            BatchFault::AfterTrailer { at } => Some(at),
            BatchFault::TooMuch { at } => Some(at),
            BatchFault::Memory => None,
        }
    }
}

impl From<AllocError> for BatchFault {
    ghost use Rattle.rx_batch.specs.declared.fault.BatchFault.TheVariants.{Memory};

    ghost from_gives = { λ _ fault. fault ≡ Memory };

    fn from(_refused: AllocError) -> BatchFault {
        BatchFault::Memory
    }
}

impl<T: Drop> From<AllocFailed<T>> for BatchFault {
    ghost use Rattle.rx_batch.specs.declared.fault.BatchFault.TheVariants.{Memory};

    ghost from_gives = { λ _ fault. fault ≡ Memory };

    fn from(_refused: AllocFailed<T>) -> BatchFault {
        BatchFault::Memory
    }
}
