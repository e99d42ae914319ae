//! A file whose last failed call is kept, since a source or a sink says only that one failed.
ghost use Rattle.std.specs.Prelude.{◌≡◌, false};

use rx_io::{ReaderSource, Sink, Source, WriterSink};
use rx_run_log::{CodesPassed, line_feeds_in};
use std::cell::Cell;
use std::fs::File;
use std::io;
use std::io::{Read, Write};

// The most bytes that one call writes: as many as the processor still has at hand when they are looked at.
const MOST_WRITTEN: usize = 262_144;

/// What the system answered to the last call on the files of a run, where that call failed.
pub type LastError = Cell<Option<io::Error>>;

/// A file of a run, which notes what the system answers.
#[derive(Drop)]
pub struct NotedFile<'a> {
    file: &'a File,
    last: &'a LastError,
}

/// How many line feeds were written to a file.
pub type LinesWritten = Cell<u64>;

/// An output of a run, which notes what the system answers and counts its lines.
#[derive(Drop)]
pub struct CountedFile<'a> {
    file: NotedFile<'a>,
    lines: &'a LinesWritten,
}

/// The reject codes that were written to a file; None where they aren't counted, or memory ran out for it.
pub type CodesWritten = Cell<Option<CodesPassed>>;

/// A response file of a run, which notes what the system answers and the reject codes.
#[derive(Drop)]
pub struct CodedFile<'a> {
    file: NotedFile<'a>,
    codes: &'a CodesWritten,
}

impl<'a> NotedFile<'a> {
    /// The file, with the place where an answer is noted.
    pub fn new(file: &'a File, last: &'a LastError) -> NotedFile<'a> {
        NotedFile { file, last }
    }

    // Notes an answer, and passes it on.
    fn note(&self, answer: io::Result<usize>) -> io::Result<usize>
        ensures { result ≡ answer }
    {
        match answer {
            Ok(count) => {
                self.last.set(None);
                Ok(count)
            }
            Err(error) => {
                self.last.set(Some(error));
                Err(error)
            }
        }
    }
}

/// The opened file as an input, whose system's answers are noted.
pub fn noted_input<'a>(file: &'a File, last: &'a LastError) -> ReaderSource<NotedFile<'a>>
    ensures { ⟦<ReaderSource<NotedFile<'a>> as Source>⟧.failed result ≡ false }
{
    ReaderSource::new(NotedFile::new(file, last)).with_hint(len_of(file))
}

/// The opened file as an output, whose system's answers are noted.
pub fn noted_output<'a>(file: &'a File, last: &'a LastError) -> WriterSink<NotedFile<'a>>
    ensures { ⟦<WriterSink<NotedFile<'a>> as Sink>⟧.failed result ≡ false }
{
    WriterSink::new(NotedFile::new(file, last))
}

// The length of a file, as the system says it; more or less may be read of it.
fn len_of(file: &File) -> Option<usize> {
    usize::try_from(file.metadata().ok()?.len()).ok()
}

impl<'a> CountedFile<'a> {
    /// The file, with the places where an answer is noted and its lines are counted.
    pub fn new(file: &'a File, last: &'a LastError, lines: &'a LinesWritten) -> CountedFile<'a> {
        CountedFile {
            file: NotedFile::new(file, last),
            lines,
        }
    }
}

/// The opened file as a response file, whose system's answers and reject codes are noted.
pub fn coded_output<'a>(
    file: &'a File,
    last: &'a LastError,
    codes: &'a CodesWritten,
) -> WriterSink<CodedFile<'a>>
    ensures { ⟦<WriterSink<CodedFile<'a>> as Sink>⟧.failed result ≡ false }
{
    let file = NotedFile::new(file, last);
    WriterSink::new(CodedFile { file, codes })
}

impl<'a> Read for NotedFile<'a> {
    fn read(&mut self, buffer: &mut [u8]) -> io::Result<usize> {
        let mut file = self.file;
        self.note(file.read(buffer))
    }
}

impl<'a> Write for NotedFile<'a> {
    fn write(&mut self, piece: &[u8]) -> io::Result<usize> {
        let mut file = self.file;
        let front = &piece[..piece.len().min(MOST_WRITTEN)];
        self.note(file.write(front))
    }

    fn flush(&mut self) -> io::Result<()> {
        Ok(())
    }
}

impl<'a> Write for CountedFile<'a> {
    fn write(&mut self, piece: &[u8]) -> io::Result<usize> {
        let count = self.file.write(piece)?;
        let lines = line_feeds_in(&piece[..count]);
        self.lines.set(self.lines.get().saturating_add(lines));
        Ok(count)
    }

    fn flush(&mut self) -> io::Result<()> {
        Ok(())
    }
}

impl<'a> Write for CodedFile<'a> {
    fn write(&mut self, piece: &[u8]) -> io::Result<usize> {
        let count = self.file.write(piece)?;
        let codes = self.codes.replace(None);
        self.codes.set(with_piece(codes, &piece[..count]));
        Ok(count)
    }

    fn flush(&mut self) -> io::Result<()> {
        Ok(())
    }
}

// The codes with those of a piece; None where memory ran out for them.
fn with_piece(codes: Option<CodesPassed>, piece: &[u8]) -> Option<CodesPassed> {
    let mut codes = codes?;
    match codes.add(piece) {
        Ok(()) => Some(codes),
        Err(_) => None,
    }
}
