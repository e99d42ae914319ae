//! The faults of a members table.
use rx_fields::Memory;

/// Why a line of a members table is no member's: the first of these that holds (docs/FORMATS.md, "Members table").
#[derive(Clone, Copy, Debug, PartialEq, Eq)]
pub enum Wrong {
    /// There are fewer than four fields.
    Fields,
    /// `family` is no id of at most 20 bytes, or begins or ends with a blank or a quotation mark.
    Family,
    /// `person` is no id of at most 3 bytes, or begins or ends with a blank or a quotation mark.
    Person,
    /// `first` is no date of eight digits.
    First,
    /// `last` is no date of eight digits.
    Last,
    /// The last day is before the first.
    Order,
}

/// Why a text is no members table: TooMuch first, then Heading, then the first fault line by line. Each number is that of
/// a line, from 1 (docs/FORMATS.md, "Members table").
#[derive(Clone, Copy, Debug, PartialEq, Eq)]
pub enum TableFault {
    /// There are more than 1,000,000 line feeds.
    TooMuch,
    /// The first line isn't the heading.
    Heading,
    /// The line is no member's.
    Line(u64, Wrong),
    /// The line's member stands on an earlier line too, whose number comes second.
    Twice(u64, u64),
    /// No line feed ends the last line.
    Unended(u64),
    /// Out of memory. No line is to blame.
    Memory,
}

impl From<Memory> for TableFault {
    ghost use Rattle.std.specs.Prelude.{◌≡◌};
    ghost use Rattle.rx_books_upkeep.specs.declared.table_fault.TableFault.TheVariants as faults;

    ghost from_gives = { λ _ fault. fault ≡ faults.Memory };

    fn from(_refused: Memory) -> TableFault {
        TableFault::Memory
    }
}
