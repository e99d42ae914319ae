use crate::day::{Day, date_read, date_write};
use crate::time::Time;

/// When a run took place: a day and a time, which the response file carries (docs/FORMATS.md, "Batch file"). Ordered
/// from earlier to later.
#[derive(Clone, Copy, PartialEq, Eq, PartialOrd, Ord)]
pub struct Stamp {
    /// The day of the run.
    pub date: Day,
    /// The time of the run.
    pub time: Time,
}

ghost use Rattle.std.specs.Prelude.{◌≡◌, Some};
ghost use Rattle.rx_fields.specs.Clock.{stamp_of, stamp_text};

impl Stamp {
    /// The stamp of the twelve digits CCYYMMDDHHMM: a date that exists, an hour 00 to 23 and a minute 00 to 59.
    /// None for any other text.
    pub fn new(bytes: &[u8]) -> Option<Stamp>
        ensures { result ≡ stamp_of bytes.now }
    {
        if bytes.len() != 12 {
            return None;
        }
        let (date, time) = bytes.split_at(8);
        let date = date_read(date).ok()?;
        let time = Time::new(time)?;
        Some(Stamp { date, time })
    }

    /// The one spelling of a stamp: CCYYMMDDHHMM.
    #[tactic(auto, unfolding(crate::specs::Clock::stamp_text))]
    pub fn digits(&self) -> [u8; 12]
        ensures text { result ≡ stamp_text self.now }
        ensures again { stamp_of result ≡ Some self.now }
    {
        let mut digits = [0; 12];
        digits[..8].copy_from_slice(&date_write(self.date));
        digits[8..].copy_from_slice(&self.time.digits());
        digits
    }
}
