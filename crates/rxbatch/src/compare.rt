//! `compare`: which answers another sheet or other books would change.
use crate::commands::refused;
use crate::ending::{Ending, Numbers};
use crate::file_fault::FileFault;
use crate::refused_text::GivenTexts;
use crate::standard_output::print;
use crate::texts::{bytes_of, read_each, slices};
use rx_cli::{CompareForm as FormWords, CompareWords};
use rx_commands::{CompareFault, CompareForm, Others};
use rx_fields::Memory;
use rx_io::{Device, Inputs};
use rx_switch::SwitchFault;
use std::thread::Threads;

/// Prints the answers of a batch that another sheet or other books would change.
pub fn compare<R: Threads + Sync>(
    rt: &HostRuntime,
    threads: &R,
    words: &CompareWords<'_>,
) -> Result<(), Ending> {
    let texts = ComparedTexts::read(rt, words)?;
    let printed = compared(rt, threads, words, &texts);
    drop(texts);
    print(rt, &printed?)
}

// The inputs, and what is given in place of one.
#[derive(Drop)]
struct ComparedTexts {
    given: Inputs<Vec<u8>>,
    sheet: Option<Vec<u8>>,
    books: Option<Vec<u8>>,
}

impl ComparedTexts {
    fn read(rt: &HostRuntime, words: &CompareWords<'_>) -> Result<ComparedTexts, Ending> {
        Ok(ComparedTexts {
            given: read_each(rt, &words.inputs)?,
            sheet: other_text(rt, "--with-sheet", words.with_sheet, Device::Sheet)?,
            books: other_text(rt, "--with-books", words.with_books, Device::Books)?,
        })
    }

    // The sheet and the books that are compared with the given ones.
    fn others(&self) -> Others<'_> {
        Others {
            sheet: given_or(self.sheet.as_ref(), self.given.sheet.as_slice()),
            books: given_or(self.books.as_ref(), self.given.books.as_slice()),
        }
    }
}

// The text that is printed of these.
fn compared<R: Threads + Sync>(
    rt: &HostRuntime,
    threads: &R,
    words: &CompareWords<'_>,
    texts: &ComparedTexts,
) -> Result<Vec<u8>, Ending> {
    let (given, others) = (slices(&texts.given), texts.others());
    match rx_commands::compare(threads, rt.alloc(), &given, others, form_by(words)) {
        Ok(text) => Ok(text),
        Err(fault) => Err(not_compared(rt, words, texts, fault)),
    }
}

// The text of a file that may be left out. One that can't be opened or read is reported in words too.
fn other_text(
    rt: &HostRuntime,
    option: &str,
    path: Option<&str>,
    device: Device,
) -> Result<Option<Vec<u8>>, Ending> {
    let Some(path) = path else {
        return Ok(None);
    };
    match bytes_of(rt, path, device) {
        Ok(text) => Ok(Some(text)),
        Err(ending) => Err(ending.at_label(rt, option, path)),
    }
}

fn given_or<'a>(text: Option<&'a Vec<u8>>, other: &'a [u8]) -> &'a [u8] {
    match text {
        Some(text) => text.as_slice(),
        None => other,
    }
}

fn form_by(words: &CompareWords<'_>) -> CompareForm {
    match words.form {
        FormWords::Words => CompareForm::Words,
        FormWords::Tsv => CompareForm::Tsv,
        FormWords::Json => CompareForm::Json,
    }
}

// The ending where an input is refused, as it is given or in place of one that is.
fn not_compared(
    rt: &HostRuntime,
    words: &CompareWords<'_>,
    texts: &ComparedTexts,
    fault: CompareFault,
) -> Ending {
    match fault {
        CompareFault::Given(fault) => refused(rt, &words.inputs, &texts.given, fault),
        CompareFault::Changed(fault) => {
            let others = texts.others();
            let sheet = words.with_sheet.unwrap_or(words.inputs.sheet);
            let books = words.with_books.unwrap_or(words.inputs.books);
            let batch = (words.inputs.batch, texts.given.batch.as_slice());
            refused_changed(
                rt,
                (sheet, others.sheet),
                (books, others.books),
                batch,
                fault,
            )
        }
    }
}

// The ending where the others are refused; each file with its path and its text.
fn refused_changed<'x>(
    rt: &HostRuntime,
    sheet: (&'x str, &'x [u8]),
    books: (&'x str, &'x [u8]),
    batch: (&'x str, &'x [u8]),
    fault: SwitchFault,
) -> Ending {
    let paths = Inputs {
        sheet: sheet.0,
        books: books.0,
        batch: batch.0,
    };
    let texts = Inputs {
        sheet: Some(sheet.1),
        books: Some(books.1),
        batch: Some(batch.1),
    };
    GivenTexts::of(paths, texts).refused(rt, fault)
}
