ghost use Rattle.std.specs.Prelude.{◌≡◌};

use crate::digits::{check_digits, digits_write, value};
use crate::fault::FieldFault;
use jiff_core::civil::Date;
use std::marker::Model;

/// A civil date of the years 0000 to 9999 that exists, ordered from earlier to later (docs/RULES.md, "Words").
#[derive(Clone, Copy, PartialEq, Eq, PartialOrd, Ord)]
pub struct Day {
    year: u16,
    month: u8,
    day: u8,
}

impl Model for Day {
    ghost use Rattle.rx_fields.specs.Calendar.{Civil, IsCivil};

    ghost Value = { Civil };

    ghost view = { λ d. record { year = d.year; month = d.month; day = d.day } };

    ghost invariant = { λ d. IsCivil (record { year = d.year; month = d.month; day = d.day }) };

    ghost inverse = { λ c. record { year = c.year; month = c.month; day = c.day } };
}

ghost use Rattle.std.specs.Prelude.{◌↔◌, ◌+ℤ◌, ◌<ℤ◌, ◌≤ℤ◌, pos, IfSome, IsNone, Ok};
ghost use Rattle.jiff_core.specs.Calendar.{IsEpochDay};
ghost use Rattle.jiff_core.specs.Date.{epoch_day};
ghost use Rattle.rx_fields.specs.Calendar.{IsCivil, day_number, date_of, date_text, last_day};

impl Day {
    /// The year, 0 to 9999.
    pub fn year(&self) -> u16
        ensures { result ≡ self.now.year }
    {
        self.year
    }

    /// The month of the year, 1 to 12.
    pub fn month(&self) -> u8
        ensures { result ≡ self.now.month }
    {
        self.month
    }

    /// The day of the month, 1 to 31.
    pub fn day(&self) -> u8
        ensures { result ≡ self.now.day }
    {
        self.day
    }

    /// The number of the day: 1970-01-01 is 0, and each day is one more than the day before.
    pub fn number(&self) -> i32
        ensures value { result ≡ day_number self.now }
        ensures within { IsEpochDay result }
    {
        self.date().to_unix_epoch_day()
    }

    /// The day that is a number of days later; None where that is after the last day of the calendar, 9999-12-31.
    pub fn plus(&self, days: u64) -> Option<Day>
        ensures value { IfSome result (λ day. day_number day ≡ day_number self.now +ℤ pos days) }
        ensures none { IsNone result ↔ (day_number last_day <ℤ (day_number self.now +ℤ pos days)) }
        ensures civil { IsCivil self.now }
    {
        let date = self.date();
        let Ok(days) = i64::try_from(days) else {
            return None;
        };
        match date.checked_add(days) {
            Ok(later) => Some(Day {
                year: later.year as u16,
                month: later.month,
                day: later.day,
            }),
            Err(_) => None,
        }
    }

    // The day as the library of dates has it.
    fn date(&self) -> Date
        ensures number { epoch_day result ≡ day_number self.now }
        ensures year { pos 0 ≤ℤ result.year }
        ensures civil { IsCivil self.now }
    {
        match Date::new(self.year as i16, self.month as i8, self.day as i8) {
            Ok(date) => date,
            Err(_) => unreachable!(),
        }
    }
}

/// The day of the eight digits CCYYMMDD; fewer digits are no date (docs/FORMATS.md, "Dates").
pub fn date_read(bytes: &[u8]) -> Result<Day, FieldFault>
    ensures { result ≡ date_of bytes.now }
{
    check_digits(bytes, 8)?;
    if bytes.len() < 8 {
        return Err(FieldFault::NotDate);
    }
    let year = value(&bytes[0..4]) as u16;
    let month = value(&bytes[4..6]) as u8;
    let day = value(&bytes[6..8]) as u8;
    match Date::new(year as i16, month as i8, day as i8) {
        Ok(_) => Ok(Day { year, month, day }),
        Err(_) => Err(FieldFault::NotDate),
    }
}

/// The one spelling of a day: CCYYMMDD (docs/FORMATS.md, "Dates").
#[tactic(auto, unfolding(crate::specs::Calendar::date_text))]
pub fn date_write(day: Day) -> [u8; 8]
    ensures text { result ≡ date_text day }
    ensures again { date_of result ≡ Ok day }
{
    let [y0, y1, y2, y3]: [u8; 4] = digits_write(u64::from(day.year));
    let [m0, m1]: [u8; 2] = digits_write(u64::from(day.month));
    let [d0, d1]: [u8; 2] = digits_write(u64::from(day.day));
    [y0, y1, y2, y3, m0, m1, d0, d1]
}
