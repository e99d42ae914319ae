ghost use Rattle.std.specs.Prelude.{◌≡◌, [], ◌∷◌, ◌++◌, IfOk, OnOk, map, option_copied, string_bytes};
ghost use Rattle.rx_fields.specs.Calendar.{date_text};
ghost use Rattle.rx_diagnostics.specs.Lines.{line_text};
ghost use Rattle.rx_check.specs.Report.{IsReport, TellsBatch, TellsBooks, TellsSheet, adjudicated_text, ignored_text};
ghost use Rattle.rx_check.specs.Report.{lines_text, may_pass_text, none_under_text, period_text, period_words, warning_line, warnings_text};

use crate::findings::Files;
use crate::found::Found;
use crate::warnings::Warnings;
use rx_batch::BatchFault;
use rx_books_text::BooksFault;
use rx_diagnostics::{Words, batch_words, books_words, sheet_words};
use rx_fields::{Day, MOST_LINES, Memory, Period, date_write};
use rx_io::Inputs;
use rx_sheet::SheetFault;
use std::alloc::{AllocError, Global};

/// The names of the files of a run. That of a file that isn't given doesn't matter.
pub type Names<'a> = Inputs<&'a str>;

/// What was found, in words: a line for the first fault of each file, and then one for each warning.
///
/// # Errors
///
/// Only Memory.
pub(crate) fn report(
    alloc: Global,
    files: &Files<'_>,
    names: &Names<'_>,
    found: &Found,
) -> Result<String, Memory>
    ensures { IfOk result (λ text. IsReport files.now names.now found.now (string_bytes text)) }
{
    let mut text = sheet_line(alloc, names.sheet, files.sheet, found.sheet)?;
    let books = books_line(alloc, names.books, files.books, found.books)?;
    let batch = batch_line(alloc, names.batch, files.batch, found.batch)?;
    text.push_str(books.as_str())?;
    text.push_str(batch.as_str())?;
    put_warnings(alloc, &mut text, names, &found.warnings)?;
    Ok(text)
}

// The line of the sheet's fault.
fn sheet_line(
    alloc: Global,
    name: &str,
    text: &[u8],
    fault: Option<SheetFault>,
) -> Result<String, Memory>
    ensures { IfOk result (λ line. TellsSheet name.now text.now fault (string_bytes line)) }
{
    match fault {
        Some(fault) => line_of(alloc, name, &sheet_words(alloc, fault, text)?),
        None => Ok(String::new(alloc)),
    }
}

// The line of the books' fault, where they are given.
fn books_line(
    alloc: Global,
    name: &str,
    text: Option<&[u8]>,
    fault: Option<BooksFault>,
) -> Result<String, Memory>
    ensures { IfOk result (λ line. TellsBooks name.now (option_copied text.entry) fault (string_bytes line)) }
{
    match (text, fault) {
        (Some(text), Some(fault)) => line_of(alloc, name, &books_words(alloc, fault, text)?),
        _ => Ok(String::new(alloc)),
    }
}

// The line of the batch's fault, where it is given.
fn batch_line(
    alloc: Global,
    name: &str,
    text: Option<&[u8]>,
    fault: Option<BatchFault>,
) -> Result<String, Memory>
    ensures { IfOk result (λ line. TellsBatch name.now (option_copied text.entry) fault (string_bytes line)) }
{
    match (text, fault) {
        (Some(text), Some(fault)) => line_of(alloc, name, &batch_words(alloc, fault, text)?),
        _ => Ok(String::new(alloc)),
    }
}

// The line of a fault, with its end.
fn line_of(alloc: Global, name: &str, words: &Words) -> Result<String, Memory>
    ensures { IfOk result (λ line. string_bytes line ≡ line_text name.now words.now ++ 10 ∷ []) }
{
    let mut line = words.line(alloc, name)?;
    line.push('\n')?;
    Ok(line)
}

// What a run would take and an operator would hardly mean.
#[tactic(auto, using(std::proofs::Common::append_assoc))]
fn put_warnings(
    alloc: Global,
    text: &mut String,
    names: &Names<'_>,
    warnings: &Warnings,
) -> Result<(), AllocError>
    ensures { OnOk result (string_bytes text.new ≡ string_bytes text.old ++ warnings_text names.now warnings.now) }
{
    put_ignored(text, names.sheet, warnings.ignored.as_slice())?;
    put_period(alloc, text, names.books, warnings.period)?;
    put_lines(alloc, text, names.books, warnings)?;
    put_none_under(text, names.batch, warnings.none_under)?;
    put_adjudicated(alloc, text, names.batch, names.books, warnings.adjudicated)?;
    put_may_pass(alloc, text, names.books, warnings.may_pass)
}

// The keys of the sheet that are ignored.
fn put_ignored(text: &mut String, sheet: &str, ignored: &[String]) -> Result<(), AllocError>
    ensures { OnOk result
        (string_bytes text.new ≡ string_bytes text.old ++ ignored_text sheet.now (map string_bytes ignored.now)) }
{
    for said in ignored {
        put_warning(text, sheet, said.as_str())?;
    }
    Ok(())
}

// The period of books that are of another one than the sheet.
fn put_period(
    alloc: Global,
    text: &mut String,
    books: &str,
    period: Option<Period>,
) -> Result<(), AllocError>
    ensures { OnOk result (string_bytes text.new ≡ string_bytes text.old ++ period_text books.now period) }
{
    let Some(period) = period else {
        return Ok(());
    };
    let place = format!(in alloc; "{books}:1")?;
    let said = period_words(alloc, period)?;
    put_warning(text, place.as_str(), said.as_str())
}

// How many lines the books have, where these are many.
#[tactic(auto, unfolding(crate::specs::Report::lines_text))]
fn put_lines(
    alloc: Global,
    text: &mut String,
    books: &str,
    warnings: &Warnings,
) -> Result<(), AllocError>
    ensures { OnOk result (string_bytes text.new ≡ string_bytes text.old ++ lines_text books.now warnings.now.lines) }
{
    if !warnings.has_many_lines() {
        return Ok(());
    }
    let lines = warnings.lines;
    let said = format!(in alloc; "{lines} lines of at most {MOST_LINES} (age takes claims out)")?;
    put_warning(text, books, said.as_str())
}

// A batch of another plan.
#[tactic(auto, unfolding(crate::specs::Report::none_under_text))]
fn put_none_under(text: &mut String, batch: &str, none_under: bool) -> Result<(), AllocError>
    ensures { OnOk result (string_bytes text.new ≡ string_bytes text.old ++ none_under_text batch.now none_under) }
{
    if !none_under {
        return Ok(());
    }
    let said = "no record names the sheet's bin and pcn: each would be rejected";
    put_warning(text, batch, said)
}

// How many standing claims have a number of the batch.
#[tactic(auto, using(std::proofs::Common::append_assoc), unfolding(crate::specs::Report::adjudicated_text))]
fn put_adjudicated(
    alloc: Global,
    text: &mut String,
    batch: &str,
    books: &str,
    count: usize,
) -> Result<(), AllocError>
    ensures { OnOk result
        (string_bytes text.new ≡ string_bytes text.old ++ adjudicated_text batch.now books.now count) }
{
    if count == 0 {
        return Ok(());
    }
    let said = format!(in alloc;
        "{count} standing claims of {books} have numbers of this batch: it was adjudicated already"
    )?;
    put_warning(text, batch, said.as_str())
}

// End books that could have too many lines.
#[tactic(auto, unfolding(crate::specs::Report::may_pass_text))]
fn put_may_pass(
    alloc: Global,
    text: &mut String,
    books: &str,
    may_pass: bool,
) -> Result<(), AllocError>
    ensures { OnOk result (string_bytes text.new ≡ string_bytes text.old ++ may_pass_text books.now may_pass) }
{
    if !may_pass {
        return Ok(());
    }
    let said = format!(in alloc;
        "with this batch the end books could have more than {MOST_LINES} lines, which no run reads"
    )?;
    put_warning(text, books, said.as_str())
}

// A warning of a file.
#[tactic(auto, using(std::proofs::Common::append_assoc))]
fn put_warning(text: &mut String, file: &str, said: &str) -> Result<(), AllocError>
    ensures { OnOk result (string_bytes text.new ≡ string_bytes text.old ++ warning_line file.now said.now) }
{
    text.push_str(file)?;
    text.push_str(": warning: ")?;
    text.push_str(said)?;
    text.push('\n')
}

// The days of a period, and what they are.
#[tactic(auto, using(std::proofs::Common::append_assoc))]
fn period_words(alloc: Global, period: Period) -> Result<String, AllocError>
    ensures { IfOk result (λ said. string_bytes said ≡ period_words period) }
{
    let first = date(alloc, period.first())?;
    let last = date(alloc, period.last())?;
    format!(in alloc;
        "the books are of {first} to {last}, another period than the sheet's: sums start again at 0, claims before it are rejected (81)"
    )
}

/// A day in its digits, which are ASCII.
pub(crate) fn date(alloc: Global, day: Day) -> Result<String, AllocError>
    ensures { IfOk result (λ text. string_bytes text ≡ date_text day) }
{
    let digits = date_write(day);
    let text = String::from_utf8_lossy(alloc, &digits)?;
    Ok(text)
}
