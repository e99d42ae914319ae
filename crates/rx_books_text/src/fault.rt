ghost use Rattle.std.specs.Prelude.{◌≡◌};
ghost use Rattle.rx_books_text.specs.Fault.{code_of, line_of_fault};

use rx_fields::Memory;
use std::alloc::{AllocError, AllocFailed};

/// Why a text isn't a books file: TooMuch first, then Head, then the first fault line by line, last Totals. A number is
/// that of the line, from 1 (docs/FORMATS.md, "Books file").
#[derive(Clone, Copy, Debug, PartialEq, Eq)]
pub enum BooksFault {
    /// The first line is no head line, or has no line feed.
    Head,
    /// The line is of no shape of the head's version, or has no line feed.
    Line(u64),
    /// The line's kind stands before that of the line above, or its key isn't greater than that of the line above of
    /// the same kind.
    Order(u64),
    /// No member line above has the claim's member, or a member of the total's family.
    UnknownMember(u64),
    /// A figure of the line isn't the sum over the claims of the head's period; or a family has no total line, which is
    /// reported with the number of lines plus one.
    Totals(u64),
    /// There are more than 1,000,000 line feeds.
    TooMuch,
    /// Out of memory. No line is to blame.
    Memory,
}

impl BooksFault {
    /// The fault's number.
    pub fn code(self) -> u32
        ensures { result ≡ code_of self }
    {
        match self {
            BooksFault::Head => 1,
            BooksFault::Line(_) => 2,
            BooksFault::Order(_) => 3,
            BooksFault::UnknownMember(_) => 4,
            BooksFault::Totals(_) => 5,
            BooksFault::TooMuch => 6,
            BooksFault::Memory => 7,
        }
    }

    /// The fault's line, from 1; None for a fault of the whole text.
    pub fn line(self) -> Option<u64>
        ensures { result ≡ line_of_fault self }
    {
        match self {
            BooksFault::Line(line) => Some(line),
            BooksFault::Order(line) => Some(line),
            BooksFault::UnknownMember(line) => Some(line),
            BooksFault::Totals(line) => Some(line),
            BooksFault::Head => None,
            BooksFault::TooMuch => None,
            BooksFault::Memory => None,
        }
    }
}

impl From<Memory> for BooksFault {
    ghost use Rattle.rx_books_text.specs.declared.fault.BooksFault.TheVariants as faults;

    ghost from_gives = { λ _ fault. fault ≡ faults.Memory };

    fn from(_refused: Memory) -> BooksFault {
        BooksFault::Memory
    }
}

impl From<AllocError> for BooksFault {
    ghost use Rattle.rx_books_text.specs.declared.fault.BooksFault.TheVariants as faults;

    ghost from_gives = { λ _ fault. fault ≡ faults.Memory };

    fn from(_refused: AllocError) -> BooksFault {
        BooksFault::Memory
    }
}

impl<T: Drop> From<AllocFailed<T>> for BooksFault {
    ghost use Rattle.rx_books_text.specs.declared.fault.BooksFault.TheVariants as faults;

    ghost from_gives = { λ _ fault. fault ≡ faults.Memory };

    fn from(_refused: AllocFailed<T>) -> BooksFault {
        BooksFault::Memory
    }
}
