//! The first day from which on claims that left can't matter to a plan: each is dated before, so that no billing or reversal names
//! it, and no fill is too soon by it (docs/RULES.md, "Ageing").
ghost use Rattle.std.specs.Prelude.{◌≡◌, ◌≤◌, ◌<◌, ◌+◌, ◌*◌, ◌&&◌, MatchOption, false, int_le, true};
ghost use Rattle.rx_fields.specs.Calendar.{Civil, IsCivil, day_number};
ghost use Rattle.rx_books_upkeep.specs.AgedText.{is_reached};
ghost use Rattle.rx_books_upkeep.specs.Ageing.{is_over};

use rx_fields::{Day, Days, date_read};
use rx_ledger::Row;

// The first day of the calendar.
const FIRST_DAY: &[u8; 8] = b"00000101";

/// The day from which on a claim is over.
pub(crate) fn over_from(row: &Row, percent: u64) -> Option<Day>
    requires { percent ≤ 100 }
    ensures { MatchOption result ((day : Civil) → IsCivil day → is_over percent day row.now ≡ false)
        (λ first. (day : Civil) → is_over percent day row.now ≡ int_le (day_number first) (day_number day)) }
{
    row.key.date.plus(days_until_over(row.days, percent))
}

// How many days after its date a claim of this many days is over: at least one.
fn days_until_over(days: Days, percent: u64) -> u64
    requires { percent ≤ 100 }
    ensures some { 1 ≤ result }
    ensures enough { days * percent ≤ result * 100 }
    ensures least { 1 < result → result * 100 < days * percent + 100 }
{
    (days.get() * percent).div_ceil(100).max(1)
}

/// The later of two days, none where one is none.
pub(crate) fn later_of(one: Option<Day>, other: Option<Day>) -> Option<Day>
    ensures { (day : Civil) → is_reached result day ≡ (is_reached one day && is_reached other day) }
{
    Some(later(one?, other?))
}

fn later(one: Day, other: Day) -> Day
    ensures { (day : Civil) → int_le (day_number result) (day_number day)
        ≡ (int_le (day_number one) (day_number day) && int_le (day_number other) (day_number day)) }
{
    if one.number() < other.number() {
        other
    } else {
        one
    }
}

/// The first day of the calendar.
pub(crate) fn first_day() -> Day
    ensures { (day : Civil) → IsCivil day → int_le (day_number result) (day_number day) ≡ true }
{
    match date_read(FIRST_DAY) {
        Ok(day) => day,
        Err(_) => unreachable!(),
    }
}
