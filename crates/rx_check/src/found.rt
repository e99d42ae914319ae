ghost use Rattle.std.specs.Prelude.{◌≡◌};
ghost use Rattle.rx_check.specs.Found.{first_of};

use crate::warnings::Warnings;
use rx_batch::BatchFault;
use rx_books_text::BooksFault;
use rx_sheet::SheetFault;

/// What is found of the inputs of a run.
#[derive(Drop)]
pub struct Found {
    /// The first fault of the plan sheet.
    pub sheet: Option<SheetFault>,
    /// The first fault of the books, where they were given.
    pub books: Option<BooksFault>,
    /// The first fault of the batch file, where it was given.
    pub batch: Option<BatchFault>,
    /// What a run would take and an operator would hardly mean.
    pub warnings: Warnings,
}

/// The first fault of the inputs, and whose it is.
#[derive(Clone, Copy, Debug, PartialEq, Eq)]
pub enum InputFault {
    /// The plan sheet's.
    Sheet(SheetFault),
    /// The books'.
    Books(BooksFault),
    /// The batch file's.
    Batch(BatchFault),
}

impl Found {
    /// The first fault, in the order in which a run looks at its inputs; None where it takes all that were given.
    pub fn first(&self) -> Option<InputFault>
        ensures { result ≡ first_of self.now }
    {
        if let Some(fault) = self.sheet {
            return Some(InputFault::Sheet(fault));
        }
        if let Some(fault) = self.books {
            return Some(InputFault::Books(fault));
        }
        match self.batch {
            Some(fault) => Some(InputFault::Batch(fault)),
            None => None,
        }
    }
}
