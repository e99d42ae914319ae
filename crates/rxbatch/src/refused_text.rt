//! A refusal of texts that a command read, in words.
use crate::ending::{Ending, numbers_of};
use crate::shown_path::shown_path;
use rx_batch::BatchFault;
use rx_check::{Input, RunInputs, fault_words};
use rx_fields::Memory;
use rx_io::Inputs;
use rx_sheet::SheetFault;
use rx_switch::SwitchFault;

/// What a command read: its inputs by path and, where they were read, by text; and the stamp and the workers that it was
/// given, which don't matter where no run is made.
#[derive(Clone, Copy)]
pub struct GivenTexts<'a> {
    pub paths: Inputs<&'a str>,
    pub texts: Inputs<Option<&'a [u8]>>,
    pub stamp: &'a str,
    pub workers: u16,
}

impl<'a> GivenTexts<'a> {
    /// Of a command that makes no run with them.
    pub fn of(paths: Inputs<&'a str>, texts: Inputs<Option<&'a [u8]>>) -> GivenTexts<'a> {
        GivenTexts {
            paths,
            texts,
            stamp: "",
            workers: 0,
        }
    }

    /// The ending where these are refused: the numbers, and then the words.
    pub fn refused(&self, rt: &HostRuntime, fault: SwitchFault) -> Ending {
        match self.words(rt, fault) {
            Ok(line) => Ending::InWords(numbers_of(fault), line),
            Err(Memory) => Ending::from(fault),
        }
    }

    /// The words of a refusal.
    pub fn words(&self, rt: &HostRuntime, fault: SwitchFault) -> Result<String, Memory> {
        let alloc = rt.alloc();
        let names = Inputs {
            sheet: shown_path(alloc, self.paths.sheet)?,
            books: shown_path(alloc, self.paths.books)?,
            batch: shown_path(alloc, self.paths.batch)?,
        };
        let run = RunInputs {
            inputs: Inputs {
                sheet: input(names.sheet.as_str(), self.texts.sheet),
                books: input(names.books.as_str(), self.texts.books),
                batch: input(names.batch.as_str(), self.texts.batch),
            },
            stamp: self.stamp,
            workers: self.workers,
        };
        fault_words(alloc, fault, &run)
    }
}

/// The ending where a plan sheet, its path and text, is refused, in words.
pub fn refused_sheet<'x>(rt: &HostRuntime, file: (&'x str, &'x [u8]), fault: SheetFault) -> Ending {
    let (path, text) = file;
    let paths = inputs(path, "", "");
    let texts = inputs(Some(text), None, None);
    GivenTexts::of(paths, texts).refused(rt, SwitchFault::from(fault))
}

/// Inputs, in the order of their numbers.
pub fn inputs<T>(sheet: T, books: T, batch: T) -> Inputs<T> {
    Inputs {
        sheet,
        books,
        batch,
    }
}

fn input<'a>(name: &'a str, text: Option<&'a [u8]>) -> Input<'a> {
    Input { name, text }
}

/// The ending where the file at a path isn't a response file: its numbers, and then the words, which are those of a batch file. A
/// header isn't quoted, since a batch file's has another type.
pub fn refused_response<'x>(
    rt: &HostRuntime,
    path: &'x str,
    text: &'x [u8],
    fault: BatchFault,
) -> Ending {
    let ending = Ending::of_response(fault);
    match response_words(rt, path, text, fault) {
        Ok(line) => ending.in_words(line),
        Err(Memory) => ending,
    }
}

/// Its words.
pub fn response_words<'x>(
    rt: &HostRuntime,
    path: &'x str,
    text: &'x [u8],
    fault: BatchFault,
) -> Result<String, Memory> {
    let quoted = match fault {
        BatchFault::HeaderShape { .. } => None,
        _ => Some(text),
    };
    let paths = inputs("", "", path);
    let texts = inputs(None, None, quoted);
    GivenTexts::of(paths, texts).words(rt, SwitchFault::Batch(fault))
}
