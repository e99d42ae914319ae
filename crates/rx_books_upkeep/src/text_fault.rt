//! Why a text of books isn't kept up.
use crate::table_fault::TableFault;
use rx_books_text::BooksFault;
use rx_fields::Memory;

/// Why nothing is made of the texts: the first of these that holds.
#[derive(Clone, Copy, Debug, PartialEq, Eq)]
pub enum UpkeepFault {
    /// The text isn't a books file.
    Books(BooksFault),
    /// The text isn't a members table.
    Table(TableFault),
    /// The day is after the first day of the period.
    AfterPeriod,
    /// The end books would have more than 1,000,000 lines, which nothing reads.
    TooMuch,
    /// Out of memory. No text is to blame.
    Memory,
}

impl From<TableFault> for UpkeepFault {
    ghost use Rattle.std.specs.Prelude.{◌≡◌};
    ghost use Rattle.rx_books_upkeep.specs.TextFault.{of_table};

    ghost from_gives = { λ from fault. fault ≡ of_table from };

    fn from(fault: TableFault) -> UpkeepFault {
        match fault {
            TableFault::Memory => UpkeepFault::Memory,
            fault => UpkeepFault::Table(fault),
        }
    }
}

impl From<Memory> for UpkeepFault {
    ghost use Rattle.std.specs.Prelude.{◌≡◌};
    ghost use Rattle.rx_books_upkeep.specs.declared.text_fault.UpkeepFault.TheVariants as faults;

    ghost from_gives = { λ _ fault. fault ≡ faults.Memory };

    fn from(_refused: Memory) -> UpkeepFault {
        UpkeepFault::Memory
    }
}
