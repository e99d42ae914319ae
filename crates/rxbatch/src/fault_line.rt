use crate::ending::{Ending, Numbers};
use crate::file_fault::{FileFault, ProgramFile};
use crate::read_again::ReadInputs;
use crate::settings::RunSettings;
use crate::shown_path::shown_path;
use rx_check::{Input, RunInputs, fault_words};
use rx_fields::{MOST_LINES, Memory};
use rx_io::{Device, Inputs};
use rx_run_log::Traffic;
use rx_switch::SwitchFault;

/// The ending of a run of which a file failed, with a line in words after its number.
pub fn explained(rt: &HostRuntime, words: &RunSettings<'_>, fault: FileFault) -> Ending {
    match file_words(rt, words, &fault) {
        Ok(line) => Ending::InWords(Numbers::File(fault.file.number()), line),
        Err(Memory) => Ending::File(fault),
    }
}

/// A file that failed, in words.
pub fn file_words(
    rt: &HostRuntime,
    words: &RunSettings<'_>,
    fault: &FileFault,
) -> Result<String, Memory> {
    let path = match fault.file {
        ProgramFile::Of(device) => path_of(words, device),
        ProgramFile::Log => words.log.unwrap_or(""),
        ProgramFile::Output
        | ProgramFile::Members
        | ProgramFile::Dropped
        | ProgramFile::Page
        | ProgramFile::Excerpt
        | ProgramFile::Plans
        | ProgramFile::Report => "",
    };
    fault.words(rt.alloc(), path)
}

/// What an operator should know of end books with this number of lines, in words; none where a run can read them.
pub fn long_books_words(rt: &HostRuntime, words: &RunSettings<'_>, lines: u64) -> Option<String> {
    long_books(rt, "--books-out", words.outputs.books, lines)
}

/// The same of end books that a message calls so.
pub fn long_books(rt: &HostRuntime, label: &str, path: &str, lines: u64) -> Option<String> {
    if lines <= MOST_LINES as u64 {
        return None;
    }
    let shown = shown_path(rt.alloc(), path).ok()?;
    format!(in rt.alloc();
        "{label} {shown}: {lines} lines, and no run reads books of more than {MOST_LINES} (age takes claims out)"
    ).ok()
}

/// A refusal in words. The input at fault is read again for them: one that isn't a regular file, as a pipe, or that has other
/// bytes by now, is described without a quotation.
pub fn refused_words(
    rt: &HostRuntime,
    words: &RunSettings<'_>,
    refused: SwitchFault,
    read: &ReadInputs<'_>,
    traffic: &Inputs<Traffic>,
) -> Result<String, Memory> {
    let alloc = rt.alloc();
    let text = read.again(rt, refused, traffic);
    let names = Inputs {
        sheet: shown_path(alloc, words.inputs.sheet)?,
        books: shown_path(alloc, words.inputs.books)?,
        batch: shown_path(alloc, words.inputs.batch)?,
    };
    fault_words(
        alloc,
        refused,
        &run_inputs(&names, &text, words.stamp, words.manner.workers),
    )
}

// The inputs of a run under the names that are shown, with the bytes of the one that is at fault.
fn run_inputs<'a>(
    names: &'a Inputs<String>,
    text: &'a Option<Vec<u8>>,
    stamp: &'a str,
    workers: u16,
) -> RunInputs<'a> {
    RunInputs {
        inputs: Inputs {
            sheet: given(names.sheet.as_str(), text),
            books: given(names.books.as_str(), text),
            batch: given(names.batch.as_str(), text),
        },
        stamp,
        workers,
    }
}

// A file with this name, and its bytes where they are there.
fn given<'a>(name: &'a str, text: &'a Option<Vec<u8>>) -> Input<'a> {
    match text {
        Some(text) => Input {
            name,
            text: Some(text.as_slice()),
        },
        None => Input { name, text: None },
    }
}

fn path_of<'a>(words: &RunSettings<'a>, device: Device) -> &'a str {
    match (words.inputs.get(device), words.outputs.get(device)) {
        (Some(path), _) | (None, Some(path)) => path,
        (None, None) => "",
    }
}
