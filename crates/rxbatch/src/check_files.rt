use crate::ending::Ending;
use crate::plans_checked;
use crate::shown_path::shown_path;
use crate::standard_output::print;
use crate::texts::text_of;
use rx_check::{Checked, Files};
use rx_cli::CheckWords;
use rx_fields::Memory;
use rx_io::{Device, Inputs};
use std::alloc::Global;

/// Prints the first fault of each input file in words, and what a run would take and an operator would hardly mean. It
/// ends with the first fault, as a run would, and where there are only warnings with a status of its own.
pub fn check(rt: &HostRuntime, words: &CheckWords<'_>) -> Result<(), Ending> {
    match *words {
        CheckWords::OnePlan(paths) => check_one(rt, &paths),
        CheckWords::Plans { plans, batch } => plans_checked::check(rt, plans, batch),
    }
}

// The same of the files of one plan.
fn check_one(rt: &HostRuntime, paths: &CheckedPaths<'_>) -> Result<(), Ending> {
    match read_given(rt, paths) {
        Ok(texts) => {
            let files = Inputs {
                sheet: texts.sheet.as_slice(),
                books: texts.books.as_deref(),
                batch: texts.batch.as_deref(),
            };
            check_texts(rt, paths, &files)
        }
        Err(ending) => Err(unread(rt, ending)),
    }
}

/// The paths of the files that are checked.
pub type CheckedPaths<'a> = Inputs<&'a str, Option<&'a str>, Option<&'a str>>;

// The texts of the files that are given.
type Texts = Inputs<Vec<u8>, Option<Vec<u8>>, Option<Vec<u8>>>;

// Opens the files in the order of their numbers, and reads them.
fn read_given(rt: &HostRuntime, paths: &CheckedPaths<'_>) -> Result<Texts, Ending> {
    Ok(Inputs {
        sheet: text_of(rt, paths.sheet, Device::Sheet)?,
        books: text_if_given(rt, paths.books, Device::Books)?,
        batch: text_if_given(rt, paths.batch, Device::Batch)?,
    })
}

fn text_if_given(
    rt: &HostRuntime,
    path: Option<&str>,
    device: Device,
) -> Result<Option<Vec<u8>>, Ending> {
    match path {
        Some(path) => Ok(Some(text_of(rt, path, device)?)),
        None => Ok(None),
    }
}

/// The ending of a check where a file can't be read or is refused; why, is printed.
pub fn unread(rt: &HostRuntime, ending: Ending) -> Ending {
    match ending {
        Ending::InWords(numbers, line) => match print_ended(rt, line) {
            Ok(()) => Ending::Bare(numbers),
            Err(output) => output,
        },
        other => other,
    }
}

// Prints a line, where there is memory for its end.
fn print_ended(rt: &HostRuntime, mut line: String) -> Result<(), Ending> {
    if line.push('\n').is_err() {
        return Ok(());
    }
    print(rt, line.as_str().as_bytes())
}

/// Prints what is found of texts that were read.
pub fn check_texts(
    rt: &HostRuntime,
    paths: &CheckedPaths<'_>,
    files: &Files<'_>,
) -> Result<(), Ending> {
    let checked = checked(rt.alloc(), paths, files)?;
    print(rt, checked.text.as_str().as_bytes())?;
    match checked.refusal {
        Some(fault) => Err(Ending::from(fault)),
        None if checked.has_warnings => Err(Ending::Warned),
        None => Ok(()),
    }
}

/// What a check finds in texts that were read, with their paths as messages show them.
pub fn checked(
    alloc: Global,
    paths: &CheckedPaths<'_>,
    files: &Files<'_>,
) -> Result<Checked, Memory> {
    let shown = Inputs {
        sheet: shown_path(alloc, paths.sheet)?,
        books: shown_path(alloc, paths.books.unwrap_or(""))?,
        batch: shown_path(alloc, paths.batch.unwrap_or(""))?,
    };
    let names = shown.as_ref().map(|name| name.as_str());
    rx_check::check(alloc, files, &names)
}
