ghost use Rattle.std.specs.Prelude.{◌≡◌, ◌||◌};
ghost use Rattle.std.specs.Io.{WritesAtMost};
ghost use Rattle.std.specs.Io.KnownBytes.{WriteAppends};
ghost use Rattle.rx_io.specs.Writing.{is_failed_write};
ghost use Rattle.rx_run_log.specs.Traffic.{AddsCall};

use crate::watched::Watched;
use rx_io::{Failed, Sink};
use std::time::Clock;

impl<'c, S: Sink, C: Clock> Sink for Watched<'c, S, C> {
    ghost written = { λ s. S.written s.device };

    ghost failed = { λ s. S.failed s.device };

    /// Takes what the sink takes, and adds it to the traffic.
    fn write(&mut self, piece: &[u8]) -> Result<usize, Failed>
        ensures bound { WritesAtMost result piece.now }
        ensures bytes { WriteAppends (S.written self.old.device) (S.written self.new.device) result piece.now }
        ensures failed { S.failed self.new.device ≡ (S.failed self.old.device || is_failed_write result piece.now) }
        ensures traffic { AddsCall result self.old.traffic self.new.traffic piece.now }
    {
        let begin = self.clock.monotonic().ok();
        let count = self.device.write(piece)?;
        self.note(begin, &piece[..count]);
        Ok(count)
    }
}
