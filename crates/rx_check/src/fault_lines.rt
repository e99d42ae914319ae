ghost use Rattle.std.specs.Prelude.{◌≡◌, IfOk, option_copied, string_bytes};
ghost use Rattle.rx_diagnostics.specs.Lines.{BeginsAt};
ghost use Rattle.rx_diagnostics.specs.Places.{books_place};
ghost use Rattle.rx_diagnostics.specs.declared.place.Place.{Place};
ghost use Rattle.rx_check.specs.Faults.{IsFaultLine, IsFaultText, IsLineOf, IsSheetPlaceIn, batch_place_in, stamp_fault};
ghost use Rattle.rx_check.specs.Faults.{stamp_text, workers_text};
ghost use Rattle.rx_check.specs.Wording.{AreBatchWords, AreBooksWords, AreSheetWords};

use rx_batch::BatchFault;
use rx_books_text::BooksFault;
use rx_diagnostics::{
    Words, batch_words, books_words, quoted, sheet_words, unread_batch_words, unread_books_words,
    unread_sheet_words,
};
use rx_fields::{MOST_WORKERS, Memory, date_read};
use rx_io::Inputs;
use rx_sheet::SheetFault;
use rx_switch::SwitchFault;
use rx_text::all_digits;
use std::alloc::{AllocError, Global};

/// An input: its name, and its bytes where they could be read again.
#[derive(Clone, Copy)]
pub struct Input<'a> {
    /// The name of the file.
    pub name: &'a str,
    /// Its bytes; None of a pipe, which is read once.
    pub text: Option<&'a [u8]>,
}

/// The inputs of a run, its stamp and its number of workers.
#[derive(Clone, Copy)]
pub struct RunInputs<'a> {
    /// The three inputs.
    pub inputs: Inputs<Input<'a>>,
    /// The stamp, as it was given.
    pub stamp: &'a str,
    /// The number of workers.
    pub workers: u16,
}

/// The line of a refusal in words (docs/CLI.md, "Words of a fault"): the file's name and the fault's place, what is
/// there and what is expected. A fault of no file names the option at fault.
///
/// # Errors
///
/// Out of memory only.
pub fn fault_words(alloc: Global, fault: SwitchFault, run: &RunInputs<'_>) -> Result<String, Memory>
    ensures begins { IfOk result (λ line. IsFaultLine run.now fault (string_bytes line)) }
    ensures said { IfOk result (λ line. IsFaultText run.now fault (string_bytes line)) }
{
    match fault {
        SwitchFault::Workers => Ok(workers_words(alloc, run.workers)?),
        SwitchFault::Stamp => Ok(stamp_words(alloc, run.stamp)?),
        SwitchFault::Sheet(fault) => sheet_line(alloc, fault, &run.inputs.sheet),
        SwitchFault::Books(fault) => books_line(alloc, fault, &run.inputs.books),
        SwitchFault::Batch(fault) => batch_line(alloc, fault, &run.inputs.batch),
        SwitchFault::Memory => Ok(String::from_str(alloc, "out of memory")?),
        SwitchFault::Thread => Ok(String::from_str(alloc, "a thread could not be started")?),
    }
}

// The line of a fault of the sheet.
fn sheet_line(alloc: Global, fault: SheetFault, input: &Input<'_>) -> Result<String, Memory>
    ensures begins { IfOk result (λ line.
        (at : Place) × IsSheetPlaceIn (option_copied input.now.text) fault at × BeginsAt input.now.name.now at (string_bytes line)) }
    ensures said { IfOk result (λ line.
        IsLineOf (AreSheetWords (option_copied input.now.text) fault) input.now.name.now (string_bytes line)) }
{
    let words = words_of_sheet(alloc, fault, input.text)?;
    words.line(alloc, input.name)
}

// The line of a fault of the books.
fn books_line(alloc: Global, fault: BooksFault, input: &Input<'_>) -> Result<String, Memory>
    ensures begins { IfOk result (λ line. BeginsAt input.now.name.now (books_place fault) (string_bytes line)) }
    ensures said { IfOk result (λ line.
        IsLineOf (AreBooksWords (option_copied input.now.text) fault) input.now.name.now (string_bytes line)) }
{
    let words = words_of_books(alloc, fault, input.text)?;
    words.line(alloc, input.name)
}

// The line of a fault of the batch.
fn batch_line(alloc: Global, fault: BatchFault, input: &Input<'_>) -> Result<String, Memory>
    ensures begins { IfOk result (λ line.
        BeginsAt input.now.name.now (batch_place_in (option_copied input.now.text) fault) (string_bytes line)) }
    ensures said { IfOk result (λ line.
        IsLineOf (AreBatchWords (option_copied input.now.text) fault) input.now.name.now (string_bytes line)) }
{
    let words = words_of_batch(alloc, fault, input.text)?;
    words.line(alloc, input.name)
}

fn words_of_sheet(alloc: Global, fault: SheetFault, text: Option<&[u8]>) -> Result<Words, Memory>
    ensures place { IfOk result (λ words. IsSheetPlaceIn (option_copied text.entry) fault words.place) }
    ensures said { IfOk result (AreSheetWords (option_copied text.entry) fault) }
{
    match text {
        Some(text) => sheet_words(alloc, fault, text),
        None => unread_sheet_words(alloc, fault),
    }
}

fn words_of_books(alloc: Global, fault: BooksFault, text: Option<&[u8]>) -> Result<Words, Memory>
    ensures place { IfOk result (λ words. words.place ≡ books_place fault) }
    ensures said { IfOk result (AreBooksWords (option_copied text.entry) fault) }
{
    match text {
        Some(text) => books_words(alloc, fault, text),
        None => unread_books_words(alloc, fault),
    }
}

fn words_of_batch(alloc: Global, fault: BatchFault, text: Option<&[u8]>) -> Result<Words, Memory>
    ensures place { IfOk result (λ words. words.place ≡ batch_place_in (option_copied text.entry) fault) }
    ensures said { IfOk result (AreBatchWords (option_copied text.entry) fault) }
{
    match text {
        Some(text) => batch_words(alloc, fault, text),
        None => unread_batch_words(alloc, fault),
    }
}

#[tactic(auto, using(std::proofs::Common::append_assoc))]
fn workers_words(alloc: Global, workers: u16) -> Result<String, AllocError>
    ensures { IfOk result (λ said. string_bytes said ≡ workers_text workers) }
{
    format!(in alloc; "--workers {workers}: expected 1 to {MOST_WORKERS}")
}

#[tactic(auto, using(std::proofs::Common::append_assoc))]
fn stamp_words(alloc: Global, stamp: &str) -> Result<String, AllocError>
    ensures { IfOk result (λ said. string_bytes said ≡ stamp_text stamp.now) }
{
    let wrong = stamp_fault(stamp.as_bytes());
    let stamp = quoted(alloc, stamp.as_bytes())?;
    format!(in alloc; "--stamp {stamp}: {wrong}")
}

// What is wrong with a stamp: how many digits it has, its date, or else its time.
fn stamp_fault(stamp: &[u8]) -> &'static str
    ensures { result.now ≡ stamp_fault stamp.now }
{
    if stamp.len() != 12 || !all_digits(stamp) {
        return "expected 12 digits CCYYMMDDHHMM, e.g. 202603020600";
    }
    if date_read(&stamp[..8]).is_err() {
        return "its first 8 digits aren't a date";
    }
    "its last 4 digits aren't a time from 0000 to 2359"
}
