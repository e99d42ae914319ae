ghost use Rattle.std.specs.Prelude.{◌≡◌, IfErr, IfOk, Ok};
ghost use Rattle.rx_batch.specs.Grammar.{IsFile};
ghost use Rattle.rx_books_store.specs.BooksFile.{IsBooksText};
ghost use Rattle.rx_sheet.specs.SheetText.{sheet_of_text};
ghost use Rattle.rx_switch.specs.Planned.{IsNotPlanned};

use rx_batch::{Batch, read_batch};
use rx_books_store::Books;
use rx_io::Inputs;
use rx_ledger::Sheet;
use rx_sheet::read_sheet;
use rx_switch::SwitchFault;
use std::alloc::Global;

/// Reads the texts of a job.
///
/// # Errors
///
/// The first, in this order, of Sheet, Books and Batch; Memory may stand in place of any other answer.
pub(crate) fn read_inputs(
    alloc: Global,
    texts: &Inputs<&[u8]>,
) -> Result<Inputs<Sheet, Books, Batch>, SwitchFault>
    ensures sheet { IfOk result (λ inputs. sheet_of_text texts.now.sheet.now ≡ Ok inputs.sheet) }
    ensures books { IfOk result (λ inputs. IsBooksText texts.now.books.now inputs.books.period inputs.books.ledger) }
    ensures batch { IfOk result (λ inputs. IsFile texts.now.batch.now inputs.batch.head inputs.batch.details) }
    ensures refused { IfErr result (λ fault.
        IsNotPlanned texts.now.sheet.now texts.now.books.now texts.now.batch.now fault) }
{
    let sheet = read_sheet(alloc, texts.sheet)?;
    let books = Books::read(alloc, texts.books)?;
    let batch = read_batch(alloc, texts.batch)?;
    Ok(Inputs {
        sheet,
        books,
        batch,
    })
}
