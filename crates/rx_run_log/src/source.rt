ghost use Rattle.std.specs.Prelude.{◌≡◌, ◌≤◌, ◌+◌, ◌||◌, false, is_err, length};
ghost use Rattle.std.specs.Io.{ReadsAtMost};
ghost use Rattle.std.specs.Io.KnownBytes.{ReadConsumes};
ghost use Rattle.rx_io.specs.Reading.{least_room};
ghost use Rattle.rx_run_log.specs.Traffic.{AddsCall};

use crate::watched::Watched;
use rx_io::{Failed, Source};
use std::time::Clock;

impl<'c, S: Source, C: Clock> Source for Watched<'c, S, C> {
    ghost left = { λ s. S.left s.device };

    ghost failed = { λ s. S.failed s.device };

    ghost reads = { λ s. S.reads s.device };

    ghost cramped = { λ s. S.cramped s.device };

    fn hint(&self) -> Option<usize> {
        self.device.hint()
    }

    /// Gives what the source gives, and adds it to the traffic.
    fn read(&mut self, buffer: &mut [u8]) -> Result<usize, Failed>
        ensures bound { ReadsAtMost result buffer.new }
        ensures bytes { ReadConsumes (S.left self.old.device) (S.left self.new.device) result buffer.new }
        ensures failed { S.failed self.new.device ≡ (S.failed self.old.device || is_err result) }
        ensures reads { S.reads self.new.device ≤ S.reads self.old.device + 1 }
        ensures cramped { least_room ≤ length buffer.new → S.cramped self.old.device ≡ false
            → S.cramped self.new.device ≡ false }
        ensures traffic { AddsCall result self.old.traffic self.new.traffic buffer.new }
    {
        let begin = self.clock.monotonic().ok();
        let count = self.device.read(buffer)?;
        self.note(begin, &buffer[..count]);
        Ok(count)
    }
}
