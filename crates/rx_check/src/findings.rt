ghost use Rattle.std.specs.Prelude.{◌≡◌, IfOk};
ghost use Rattle.std.specs.Option.{option_copied};
ghost use Rattle.rx_check.specs.Found.{IsFound};
ghost use Rattle.rx_check.specs.Inputs.{books_fault, books_taken, sheet_fault, sheet_taken};

use crate::found::Found;
use crate::inputs;
use crate::inputs::Read;
use crate::warnings::Warnings;
use rx_books_store::Books;
use rx_books_text::BooksFault;
use rx_fields::Memory;
use rx_io::Inputs;
use rx_ledger::Sheet;
use rx_sheet::SheetFault;
use std::alloc::Global;

/// The texts of a run's inputs that are looked at: a plan sheet, and opening books and a batch file where they are given.
pub type Files<'a> = Inputs<&'a [u8], Option<&'a [u8]>, Option<&'a [u8]>>;

/// Looks at the inputs of a run: the first fault of each, and warnings of what is taken (docs/CLI.md, "check").
///
/// # Errors
///
/// Only Memory, which may stand in the place of any answer.
pub(crate) fn find(alloc: Global, files: &Files<'_>) -> Result<Found, Memory>
    ensures { IfOk result (IsFound files.now) }
{
    let sheet = inputs::sheet(alloc, files.sheet)?;
    let books = inputs::books(alloc, files.books)?;
    found(alloc, files, &sheet, &books)
}

// What is found of the inputs, the plan and the books being read.
fn found(
    alloc: Global,
    files: &Files<'_>,
    sheet: &Read<Sheet, SheetFault>,
    books: &Read<Books, BooksFault>,
) -> Result<Found, Memory>
    requires sheet { sheet.now.taken ≡ sheet_taken files.now.sheet.now }
    requires sheet_fault { sheet.now.fault ≡ sheet_fault files.now.sheet.now }
    requires books { books.now.taken ≡ books_taken (option_copied files.now.books) }
    requires books_fault { books.now.fault ≡ books_fault (option_copied files.now.books) }
    ensures { IfOk result (IsFound files.now) }
{
    let batch = inputs::batch(alloc, files.batch)?;
    let warnings = Warnings::of(alloc, files, &sheet.taken, &books.taken, &batch.taken)?;
    Ok(Found {
        sheet: sheet.fault,
        books: books.fault,
        batch: batch.fault,
        warnings,
    })
}
