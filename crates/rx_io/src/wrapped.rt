ghost use Rattle.std.specs.Prelude.{◌≡◌, ◌≤◌, ◌+◌, IfSome, MatchResult, Ok, Some, false, is_err, length, true};
ghost use Rattle.std.specs.Io.{ReadsAtMost, WritesAtMost};
ghost use Rattle.std.specs.Io.KnownBytes.{ReadConsumes, WriteAppends};
ghost use Rattle.rx_io.specs.Reading.{least_room, most_again};

use crate::counted::CountedReader;
use crate::fault::Failed;
use crate::sink::Sink;
use crate::source::Source;
use std::io::{self, ErrorKind, Read, Write};

// How often a write that a signal interrupts is made, before it counts as failed.
const TRIES: u32 = 64;

// How many calls of a reader may be made again in all, where signals interrupt them.
const MOST_AGAIN: u32 = 65_536;

// What a call answers; None where a signal interrupted it, so that it is made again.
fn unless_interrupted(answer: io::Result<usize>) -> Option<Result<usize, Failed>>
    ensures { MatchResult answer (λ count. result ≡ Some (Ok count)) (λ _. IfSome result (λ given. is_err given ≡ true)) }
{
    match answer {
        Ok(count) => Some(Ok(count)),
        Err(error) if error.kind() == ErrorKind::Interrupted => None,
        Err(_) => Some(Err(Failed)),
    }
}

/// A source that is one of std's readers. It reports the bytes that its reader reports: those of a text in memory, and
/// none of a file. Its `reads` are the calls of its reader: those that were made, and those that may be made again where
/// signals interrupt them, which are 65,536 at first. Once these are used up, an interrupted call is a failed read.
#[derive(Drop)]
pub struct ReaderSource<R> {
    reader: CountedReader<R>,
    // How many calls may be made again.
    again: u32,
    hint: Option<usize>,
    failed: bool,
    ghost few_again: { again ≤ most_again },
}

impl<R: Read> ReaderSource<R> {
    /// The reader as a source, which hasn't failed, and of which no read was made.
    pub fn new(reader: R) -> ReaderSource<R>
        ensures bytes { ⟦<ReaderSource<R> as Source>⟧.left result ≡ R.remaining reader }
        ensures failed { ⟦<ReaderSource<R> as Source>⟧.failed result ≡ false }
        ensures reads { ⟦<ReaderSource<R> as Source>⟧.reads result ≡ most_again }
        ensures cramped { ⟦<ReaderSource<R> as Source>⟧.cramped result ≡ false }
    {
        ReaderSource {
            reader: CountedReader::new(reader),
            again: MOST_AGAIN,
            hint: None,
            failed: false,
        }
    }

    /// The source, with a guess of how many bytes reads will give, as the length of its file. Only the room that is taken
    /// at first rests on it.
    pub fn with_hint(self, hint: Option<usize>) -> ReaderSource<R>
        ensures hint { result.hint ≡ hint }
        ensures bytes { ⟦<ReaderSource<R> as Source>⟧.left result ≡ ⟦<ReaderSource<R> as Source>⟧.left self }
        ensures failed { ⟦<ReaderSource<R> as Source>⟧.failed result ≡ ⟦<ReaderSource<R> as Source>⟧.failed self }
        ensures reads { ⟦<ReaderSource<R> as Source>⟧.reads result ≡ ⟦<ReaderSource<R> as Source>⟧.reads self }
        ensures cramped { ⟦<ReaderSource<R> as Source>⟧.cramped result ≡ ⟦<ReaderSource<R> as Source>⟧.cramped self }
    {
        ReaderSource {
            reader: self.reader,
            again: self.again,
            hint,
            failed: self.failed,
        }
    }

    /// How many calls of the reader were made, those included that a signal interrupted.
    pub fn calls(&self) -> u64
        ensures counted { result + self.now.again ≡ ⟦<ReaderSource<R> as Source>⟧.reads self.now }
        ensures least { ⟦<ReaderSource<R> as Source>⟧.reads self.now ≤ result + most_again }
    {
        self.reader.calls()
    }
}

impl<R: Read> Source for ReaderSource<R> {
    ghost left = { λ s. R.remaining s.reader.reader };

    ghost failed = { λ s. s.failed };

    ghost reads = { λ s. s.reader.calls + s.again };

    ghost cramped = { λ s. s.reader.cramped };

    fn hint(&self) -> Option<usize>
        ensures { result ≡ self.now.hint }
    {
        self.hint
    }

    fn read(&mut self, buffer: &mut [u8]) -> Result<usize, Failed> {
        let result = read_through(&mut self.reader, &mut self.again, buffer);
        self.failed |= result.is_err();
        result
    }
}

// A read, made again where a signal interrupts it, as long as it may.
fn read_through<R: Read>(
    reader: &mut CountedReader<R>,
    again: &mut u32,
    buffer: &mut [u8],
) -> Result<usize, Failed>
    ensures bound { ReadsAtMost result buffer.new }
    ensures bytes { ReadConsumes (R.remaining reader.old.reader) (R.remaining reader.new.reader) result buffer.new }
    ensures calls { reader.new.calls + again.new ≤ reader.old.calls + again.old + 1 }
    ensures fewer { again.new ≤ again.old }
    ensures cramped { least_room ≤ length buffer.new → reader.old.cramped ≡ false → reader.new.cramped ≡ false }
{
    'by_try: while *again > 0 {
        if let Some(answer) = unless_interrupted(reader.read(buffer)) {
            return answer;
        }
        *again -= 1;
    }
    unless_interrupted(reader.read(buffer)).unwrap_or(Err(Failed))
}

/// A sink that is one of std's writers. It reports the bytes that its writer reports. A writer that keeps bytes back,
/// as a `BufWriter`, isn't flushed.
#[derive(Drop)]
pub struct WriterSink<W> {
    writer: W,
    failed: bool,
}

impl<W: Write> WriterSink<W> {
    /// The writer as a sink, which hasn't failed.
    pub fn new(writer: W) -> WriterSink<W>
        ensures bytes { ⟦<WriterSink<W> as Sink>⟧.written result ≡ W.contents writer }
        ensures failed { ⟦<WriterSink<W> as Sink>⟧.failed result ≡ false }
    {
        WriterSink {
            writer,
            failed: false,
        }
    }

    /// The writer back.
    pub fn into_inner(self) -> W
        ensures { W.contents result ≡ ⟦<WriterSink<W> as Sink>⟧.written self }
    {
        let WriterSink { writer, failed: _ } = self;
        writer
    }
}

impl<W: Write> Sink for WriterSink<W> {
    ghost written = { λ s. W.contents s.writer };

    ghost failed = { λ s. s.failed };

    fn write(&mut self, piece: &[u8]) -> Result<usize, Failed> {
        let result = write_through(&mut self.writer, piece);
        self.failed |= result.map_or(true, |count| count == 0 && !piece.is_empty());
        result
    }
}

// A write, made again where a signal interrupts it.
fn write_through<W: Write>(writer: &mut W, piece: &[u8]) -> Result<usize, Failed>
    ensures bound { WritesAtMost result piece.now }
    ensures bytes { WriteAppends (W.contents writer.old) (W.contents writer.new) result piece.now }
{
    'by_try: for _ in 0..TRIES {
        if let Some(answer) = unless_interrupted(writer.write(piece)) {
            return answer;
        }
    }
    Err(Failed)
}
