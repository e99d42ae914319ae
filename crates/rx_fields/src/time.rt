ghost use Rattle.std.specs.Prelude.{◌≡◌};

use crate::digits::{digits_write, value};
use rx_text::all_digits;
use std::marker::Model;

/// A time of day to the minute, 00:00 to 23:59, ordered as the clock is (docs/FORMATS.md, "Batch file").
#[derive(Clone, Copy, PartialEq, Eq, PartialOrd, Ord)]
pub struct Time {
    hour: u8,
    minute: u8,
}

impl Model for Time {
    ghost use Rattle.rx_fields.specs.TimeOfDay.{Clock, IsClock};

    ghost Value = { Clock };

    ghost view = { λ t. record { hour = t.hour; minute = t.minute } };

    ghost invariant = { λ t. IsClock (record { hour = t.hour; minute = t.minute }) };

    ghost inverse = { λ c. record { hour = c.hour; minute = c.minute } };
}

ghost use Rattle.std.specs.Prelude.{Some};
ghost use Rattle.rx_fields.specs.Clock.{time_of, time_text};

impl Time {
    /// The time of the four digits HHMM: an hour 00 to 23 and a minute 00 to 59. None for any other text.
    pub fn new(bytes: &[u8]) -> Option<Time>
        ensures { result ≡ time_of bytes.now }
    {
        if bytes.len() != 4 || !all_digits(bytes) {
            return None;
        }
        let hour = value(&bytes[0..2]) as u8;
        let minute = value(&bytes[2..4]) as u8;
        if hour >= 24 || minute >= 60 {
            return None;
        }
        Some(Time { hour, minute })
    }

    /// The hour, 0 to 23.
    pub fn hour(&self) -> u8
        ensures { result ≡ self.now.hour }
    {
        self.hour
    }

    /// The minute of the hour, 0 to 59.
    pub fn minute(&self) -> u8
        ensures { result ≡ self.now.minute }
    {
        self.minute
    }

    /// The one spelling of a time: HHMM.
    #[tactic(auto, unfolding(crate::specs::Clock::time_text))]
    pub fn digits(&self) -> [u8; 4]
        ensures text { result ≡ time_text self.now }
        ensures again { time_of result ≡ Some self.now }
    {
        let [h0, h1]: [u8; 2] = digits_write(u64::from(self.hour));
        let [m0, m1]: [u8; 2] = digits_write(u64::from(self.minute));
        [h0, h1, m0, m1]
    }
}
