//! The values of the options of the commands that keep books up.
ghost use Rattle.std.specs.Prelude.{◌≤◌, IfOk};

use crate::ending::Ending;
use crate::named::WrongValue;
use crate::refused_text::refused_sheet;
use crate::texts::text_of;
use rx_fields::{Day, Period, date_read, number_read};
use rx_io::Device;
use rx_sheet::read_sheet;

/// The day of the eight digits of `--before`.
pub fn day_in(text: &str) -> Result<Day, Ending> {
    match date_read(text.as_bytes()) {
        Ok(day) => Ok(day),
        Err(_) => Err(Ending::NoValue(WrongValue::Day)),
    }
}

/// The period of two days with a hyphen between them.
pub fn period_in(text: &str) -> Result<Period, Ending> {
    let wrong = Ending::NoValue(WrongValue::Period);
    let Some((first, last)) = text.split_once('-') else {
        return Err(wrong);
    };
    let first = date_read(first.as_bytes());
    let last = date_read(last.as_bytes());
    match (first, last) {
        (Ok(first), Ok(last)) => Period::new(first, last).ok_or(wrong),
        _ => Err(wrong),
    }
}

/// The percentage of digits, 0 to 100.
pub fn percent_in(text: &str) -> Result<u64, Ending>
    ensures { IfOk result (λ n. n ≤ 100) }
{
    match number_read(text.as_bytes(), 3) {
        Ok(number) if number <= 100 => Ok(number),
        _ => Err(Ending::NoValue(WrongValue::Percent)),
    }
}

/// The refill percentage of a plan sheet.
pub fn percent_of_sheet(rt: &HostRuntime, path: &str) -> Result<u64, Ending>
    ensures { IfOk result (λ n. n ≤ 100) }
{
    let text = text_of(rt, path, Device::Sheet)?;
    let percent = match read_sheet(rt.alloc(), &text) {
        Ok(sheet) => sheet.figures().refill_percent,
        Err(fault) => return Err(refused_sheet(rt, (path, &text), fault)),
    };
    Ok(percent.min(100))
}
