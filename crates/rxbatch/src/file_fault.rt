//! A file that failed: which one, and why.
use crate::shown_path::shown_path;
use rx_fields::Memory;
use rx_io::Device;
use std::alloc::{AllocError, Global};
use std::io;

/// A file that the program reads or writes.
#[derive(Clone, Copy, PartialEq, Eq)]
pub enum ProgramFile {
    /// One of the six files of a run.
    Of(Device),
    /// The log of a run.
    Log,
    /// A table of members.
    Members,
    /// The claims that left books.
    Dropped,
    /// What each member of a table came to.
    Report,
    /// A page of a report.
    Page,
    /// A file of an excerpt.
    Excerpt,
    /// The plans file of a switch.
    Plans,
    /// Standard output.
    Output,
}

impl ProgramFile {
    /// The number of the line `file K` (docs/CLI.md, "Exit statuses").
    pub fn number(self) -> u64 {
        match self {
            ProgramFile::Of(device) => u64::from(device.number()),
            ProgramFile::Log => 7,
            ProgramFile::Members => 8,
            ProgramFile::Dropped => 9,
            ProgramFile::Page => 10,
            ProgramFile::Report => 11,
            ProgramFile::Excerpt => 12,
            ProgramFile::Plans => 13,
            ProgramFile::Output => 0,
        }
    }

    /// The option that names the file, or what a message calls it.
    pub fn option(self) -> &'static str {
        match self {
            ProgramFile::Of(device) => device.option(),
            ProgramFile::Log => "--log",
            ProgramFile::Members => "--members",
            ProgramFile::Dropped => "--dropped",
            ProgramFile::Page => "--html-dir",
            ProgramFile::Report => "--report",
            ProgramFile::Excerpt => "--out",
            ProgramFile::Plans => "--plans",
            ProgramFile::Output => "standard output",
        }
    }
}

/// Why a file failed.
#[derive(Clone, Copy)]
pub enum Reason {
    /// The system refused a call, with this answer.
    System(io::Error),
    /// The input has more bytes than 268,435,456, or takes more reads than 4,194,304.
    Long,
    /// Another run is writing the output.
    Busy,
    /// The path of an output that is done leads to another file.
    Replaced,
    /// A call failed, and the system gave no answer.
    Unknown,
}

/// A file that failed, and why.
#[derive(Clone, Copy)]
pub struct FileFault {
    pub file: ProgramFile,
    pub reason: Reason,
}

impl FileFault {
    /// Of a file for which a call answered this.
    pub fn of(file: ProgramFile, error: io::Error) -> FileFault {
        FileFault {
            file,
            reason: Reason::System(error),
        }
    }

    /// Whether another run is writing the output.
    pub fn is_busy(&self) -> bool {
        matches!(&self.reason, Reason::Busy)
    }

    /// Whether the reader of standard output is gone.
    pub fn is_closed_output(&self) -> bool {
        match &self.reason {
            Reason::System(error) => {
                self.file == ProgramFile::Output && error.kind() == io::ErrorKind::BrokenPipe
            }
            _ => false,
        }
    }

    /// The fault in words: the option, the path as it is shown, and the reason.
    pub fn words(&self, alloc: Global, path: &str) -> Result<String, Memory> {
        self.words_of(alloc, self.file.option(), path)
    }

    /// The same of what another option names.
    pub fn words_of(&self, alloc: Global, option: &str, path: &str) -> Result<String, Memory> {
        let reason = self.reason.words(alloc)?;
        if self.file == ProgramFile::Output {
            return Ok(format!(in alloc; "{option}: {reason}")?);
        }
        let shown = shown_path(alloc, path)?;
        Ok(format!(in alloc; "{option} {shown}: {reason}")?)
    }
}

impl Reason {
    fn words(&self, alloc: Global) -> Result<String, AllocError> {
        let words = match self {
            Reason::System(error) => return answer_words(alloc, error),
            Reason::Long => "more than 268435456 bytes, or more than 4194304 reads",
            Reason::Busy => "another run is writing it",
            Reason::Replaced => "another file was put in the place of this run's",
            Reason::Unknown => "the system took none of the bytes",
        };
        String::from_str(alloc, words)
    }
}

// What the system answered, without its number, as the end of a sentence: "no space left on device".
fn answer_words(alloc: Global, error: &io::Error) -> Result<String, AllocError> {
    let answer = format!(in alloc; "{error}")?;
    lowered(alloc, without_number(answer.as_str()))
}

fn without_number(answer: &str) -> &str {
    match answer.rsplit_once(" (os error ") {
        Some((words, _)) => words,
        None => answer,
    }
}

// The words with a small letter in front.
fn lowered(alloc: Global, words: &str) -> Result<String, AllocError> {
    let mut text = String::new(alloc);
    let mut is_first = true;
    for letter in words.chars() {
        let letter = if is_first {
            letter.to_ascii_lowercase()
        } else {
            letter
        };
        text.push(letter)?;
        is_first = false;
    }
    Ok(text)
}
