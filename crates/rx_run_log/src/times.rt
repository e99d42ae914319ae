ghost use Rattle.std.specs.Prelude.{◌≡◌};
ghost use Rattle.rx_run_log.specs.Times.{micros_between, micros_from};

use std::time::Duration;

/// When a run began and ended, where its clock answered.
#[derive(Clone, Copy)]
pub struct RunTimes {
    pub begin: Option<Duration>,
    pub end: Option<Duration>,
}

/// The microseconds between two times, where both are known, the second isn't before the first, and 64 bits hold them.
pub fn micros_between(from: Option<Duration>, to: Option<Duration>) -> Option<u64>
    ensures { result ≡ micros_between from to }
{
    match (from, to) {
        (Some(from), Some(to)) => micros_from(from, to),
        _ => None,
    }
}

fn micros_from(from: Duration, to: Duration) -> Option<u64>
    ensures { result ≡ micros_from from to }
{
    let taken = to.checked_sub(from)?.as_micros();
    u64::try_from(taken).ok()
}
