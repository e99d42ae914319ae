ghost use Rattle.std.specs.Prelude.{◌≡◌, IfOk};
ghost use Rattle.std.specs.Option.{option_copied};
ghost use Rattle.std.specs.Result.{result_err, result_ok};
ghost use Rattle.rx_check.specs.Inputs.{batch_fault, batch_taken, books_fault, books_taken, sheet_fault, sheet_taken};

use rx_batch::{Batch, BatchFault, read_batch};
use rx_books_store::Books;
use rx_books_text::BooksFault;
use rx_fields::Memory;
use rx_ledger::Sheet;
use rx_sheet::{SheetFault, read_sheet};
use std::alloc::Global;

/// An input as it was read: what it stands for, or its first fault; neither of one that isn't given.
#[derive(Drop)]
pub(crate) struct Read<T, F> {
    pub(crate) taken: Option<T>,
    pub(crate) fault: Option<F>,
}

impl<T, F> Read<T, F> {
    // Of a text.
    fn of(read: Result<T, F>) -> Read<T, F>
        ensures taken { result.taken ≡ result_ok read }
        ensures fault { result.fault ≡ result_err read }
    {
        match read {
            Ok(taken) => Read {
                taken: Some(taken),
                fault: None,
            },
            Err(fault) => Read {
                taken: None,
                fault: Some(fault),
            },
        }
    }

    // Of an input that isn't given.
    fn none() -> Read<T, F>
        ensures taken { result.taken ≡ None }
        ensures fault { result.fault ≡ None }
    {
        Read {
            taken: None,
            fault: None,
        }
    }
}

/// The plan of a text, or its fault.
pub(crate) fn sheet(alloc: Global, text: &[u8]) -> Result<Read<Sheet, SheetFault>, Memory>
    ensures taken { IfOk result (λ read. read.taken ≡ sheet_taken text.now) }
    ensures fault { IfOk result (λ read. read.fault ≡ sheet_fault text.now) }
{
    match read_sheet(alloc, text) {
        Err(SheetFault::Memory) => Err(Memory),
        read => Ok(Read::of(read)),
    }
}

/// The books of a text, or its fault.
pub(crate) fn books(alloc: Global, text: Option<&[u8]>) -> Result<Read<Books, BooksFault>, Memory>
    ensures taken { IfOk result (λ read. read.taken ≡ books_taken (option_copied text.entry)) }
    ensures fault { IfOk result (λ read. read.fault ≡ books_fault (option_copied text.entry)) }
{
    let Some(text) = text else {
        return Ok(Read::none());
    };
    match Books::read(alloc, text) {
        Err(BooksFault::Memory) => Err(Memory),
        read => Ok(Read::of(read)),
    }
}

/// The batch of a text, or its fault.
pub(crate) fn batch(alloc: Global, text: Option<&[u8]>) -> Result<Read<Batch, BatchFault>, Memory>
    ensures taken { IfOk result (λ read. read.taken ≡ batch_taken (option_copied text.entry)) }
    ensures fault { IfOk result (λ read. read.fault ≡ batch_fault (option_copied text.entry)) }
{
    let Some(text) = text else {
        return Ok(Read::none());
    };
    match read_batch(alloc, text) {
        Err(BatchFault::Memory) => Err(Memory),
        read => Ok(Read::of(read)),
    }
}
