//! A job that is read, and what its batch asks.
ghost use Rattle.std.specs.Prelude.{◌≡◌, IfErr, IfOk, List, Ok, Some, ℕ};
ghost use Rattle.std.specs.Option.{option_copied};
ghost use Rattle.rx_batch.specs.Grammar.{IsFile};
ghost use Rattle.rx_books_store.specs.BooksFile.{IsBooksText};
ghost use Rattle.rx_commands.specs.Explaining.{IsFileOf, IsNotExplained};
ghost use Rattle.rx_sheet.specs.SheetText.{sheet_of_text};
ghost use Rattle.rx_wave.specs.Decoding.{transmissions_of};

use crate::explain_fault::ExplainFault;
use crate::inputs::read_inputs;
use crate::tiers::Tiers;
use rx_batch::Batch;
use rx_books_store::Books;
use rx_d0_values::Transmission;
use rx_fields::Memory;
use rx_io::Inputs;
use rx_ledger::Sheet;
use rx_show::read_response;
use rx_wave::decode_in_parts;
use std::alloc::Global;
use std::thread::Threads;

/// A job, and the response file that is compared, if one is.
#[derive(Drop)]
pub(crate) struct Given {
    pub(crate) sheet: Sheet,
    pub(crate) books: Books,
    pub(crate) batch: Batch,
    pub(crate) file: Option<Batch>,
}

/// Reads the texts of a job, and the bytes of a response file, where they are given.
///
/// # Errors
///
/// The first, in this order, of Sheet, Books and Batch; then the fault of the response file. Memory may stand in place of any
/// other answer.
pub(crate) fn read_given(
    alloc: Global,
    inputs: &Inputs<&[u8]>,
    response: Option<&[u8]>,
) -> Result<Given, ExplainFault>
    ensures sheet { IfOk result (λ g. sheet_of_text inputs.now.sheet.now ≡ Ok g.sheet) }
    ensures books { IfOk result (λ g. IsBooksText inputs.now.books.now g.books.period g.books.ledger) }
    ensures batch { IfOk result (λ g. IsFile inputs.now.batch.now g.batch.head g.batch.details) }
    ensures file { IfOk result (λ g. IsFileOf (option_copied response.entry) g.file) }
    ensures refused { let given = inputs.now in IfErr result
        (IsNotExplained given.sheet.now given.books.now given.batch.now (option_copied response.entry)) }
{
    let read = read_inputs(alloc, inputs)?;
    match file_of(alloc, response) {
        Ok(file) => Ok(with_file(read, file)),
        Err(fault) => {
            drop(read);
            Err(fault)
        }
    }
}

fn with_file(read: Inputs<Sheet, Books, Batch>, file: Option<Batch>) -> Given
    ensures { result ≡ record { sheet = read.sheet; books = read.books; batch = read.batch; file = file } }
{
    let Inputs {
        sheet,
        books,
        batch,
    } = read;
    Given {
        sheet,
        books,
        batch,
        file,
    }
}

// The response file of these bytes, where they are given.
fn file_of(alloc: Global, response: Option<&[u8]>) -> Result<Option<Batch>, ExplainFault>
    ensures ok { IfOk result (IsFileOf (option_copied response.entry)) }
    ensures refused { (sheet books batch : List ℕ)
        → IfErr result (IsNotExplained sheet books batch (option_copied response.entry)) }
{
    match response {
        None => Ok(None),
        Some(bytes) => file_in(alloc, bytes),
    }
}

fn file_in(alloc: Global, bytes: &[u8]) -> Result<Option<Batch>, ExplainFault>
    ensures ok { IfOk result (IsFileOf (Some bytes.now)) }
    ensures refused { (sheet books batch : List ℕ)
        → IfErr result (IsNotExplained sheet books batch (Some bytes.now)) }
{
    let file = read_response(alloc, bytes)?;
    Ok(Some(file))
}

/// What a batch asks, and the tiers of a sheet's text.
#[derive(Drop)]
pub(crate) struct Asked {
    pub(crate) transmissions: Vec<Transmission>,
    pub(crate) tiers: Tiers,
}

/// What a batch asks at a sheet's door, and the tiers of the sheet's text.
pub(crate) fn read_asked<R: Threads + Sync>(
    rt: &R,
    alloc: Global,
    text: &[u8],
    sheet: &Sheet,
    batch: &Batch,
) -> Result<Asked, Memory>
    ensures { IfOk result (λ a.
        a.transmissions.items ≡ transmissions_of sheet.now.figures.door batch.now.details) }
{
    let transmissions = decode_in_parts(rt, alloc, 1, sheet.door(), batch.details.as_slice())?;
    let tiers = Tiers::read(alloc, text)?;
    Ok(Asked {
        transmissions,
        tiers,
    })
}
