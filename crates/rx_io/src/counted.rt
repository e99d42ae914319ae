ghost use Rattle.std.specs.Prelude.{◌≡◌, ◌+◌, ◌-◌, ◌^◌, ◌||◌, false, length, min, nat_lt};
ghost use Rattle.std.specs.Io.{ReadsAtMost};
ghost use Rattle.std.specs.Io.KnownBytes.{ReadConsumes};
ghost use Rattle.rx_io.specs.Reading.{least_room};

use crate::source::LEAST_ROOM;
use std::io::{self, ErrorKind, Read};

// One of std's readers, each call of which is counted: no other file of the crate can call it.
#[derive(Drop)]
pub(crate) struct CountedReader<R> {
    reader: R,
    // The calls that were made.
    calls: u64,
    // Whether one had room for fewer than 4,096 bytes.
    cramped: bool,
}

impl<R: Read> CountedReader<R> {
    // The reader, of which no call was made.
    pub(crate) fn new(reader: R) -> CountedReader<R>
        ensures { result ≡ record { reader = reader; calls = 0; cramped = false } }
    {
        CountedReader {
            reader,
            calls: 0,
            cramped: false,
        }
    }

    // How many calls were made.
    pub(crate) fn calls(&self) -> u64
        ensures { result ≡ self.now.calls }
    {
        self.calls
    }

    // A call of the reader. After 2 ^ 64 - 1 of them none is made, which is a failure.
    pub(crate) fn read(&mut self, buffer: &mut [u8]) -> io::Result<usize>
        ensures bound { ReadsAtMost result buffer.new }
        ensures bytes { ReadConsumes (R.remaining self.old.reader) (R.remaining self.new.reader) result buffer.new }
        ensures calls { self.new.calls ≡ min (self.old.calls + 1) (2 ^ 64 - 1) }
        ensures cramped { self.new.cramped ≡ (self.old.cramped || nat_lt (length buffer.new) least_room) }
    {
        self.cramped |= buffer.len() < LEAST_ROOM;
        if self.calls == u64::MAX {
            return Err(io::Error::from(ErrorKind::Other));
        }
        self.calls += 1;
        self.reader.read(buffer)
    }
}
