ghost use Rattle.std.specs.Prelude.{◌≡◌, ◌≤◌, ◌+◌, ◌||◌, ℕ, Bool, List, Option, false, is_err, length};
ghost use Rattle.std.specs.Io.{ReadsAtMost};
ghost use Rattle.std.specs.Io.KnownBytes.{ReadConsumes};
ghost use Rattle.rx_io.specs.Reading.{least_room};

use crate::fault::Failed;

// The least room that a read is offered, in bytes.
pub(crate) const LEAST_ROOM: usize = 4_096;

/// A device that bytes are read from.
pub trait Source {
    /// The bytes that reads will give from here on, where the device reports them.
    ghost left: { Self → Option (List ℕ) };

    /// Whether a read of it ever failed.
    ghost failed: { Self → Bool };

    /// How many reads of it were made, and how many it may still make again by itself, where the device counts them;
    /// else 0.
    ghost reads: { Self → ℕ };

    /// Whether a read of it had room for fewer than 4,096 bytes, where the device looks at that; else false.
    ghost cramped: { Self → Bool };

    /// How many bytes reads are likely to give from here on, if the device has a guess. No promise rests on it.
    fn hint(&self) -> Option<usize> {
        None
    }

    /// Reads the next bytes to the front of the buffer, and answers how many; none only at the end of the input, or
    /// where the buffer has no room.
    fn read(&mut self, buffer: &mut [u8]) -> Result<usize, Failed>
        ensures bound { ReadsAtMost result buffer.new }
        ensures bytes { ReadConsumes (left self.old) (left self.new) result buffer.new }
        ensures failed { failed self.new ≡ (failed self.old || is_err result) }
        ensures reads { reads self.new ≤ reads self.old + 1 }
        ensures cramped { least_room ≤ length buffer.new → cramped self.old ≡ false → cramped self.new ≡ false };
}
