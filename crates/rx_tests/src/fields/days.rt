use crate::table::{same, same_at};
use rx_fields::{Day, FieldFault, Period, Stamp, Time, date_read, date_write};
use std::process::Abort;

fn day(rt: &impl Abort, text: &str) -> Day {
    date_read(text.as_bytes()).expect(rt, "a date")
}

// The numbers are those of Python's `(date - date(1970, 1, 1)).days`. Python has no year 0000: its 366 days are counted
// back from 0001-01-01.
const DAYS_READ: &[(&str, (u16, u8, u8), i32)] = &[
    ("00000101", (0, 1, 1), -719_528),
    ("00000229", (0, 2, 29), -719_469),
    ("00000301", (0, 3, 1), -719_468),
    ("00010101", (1, 1, 1), -719_162),
    ("18991231", (1899, 12, 31), -25_568),
    ("19000228", (1900, 2, 28), -25_509),
    ("19000301", (1900, 3, 1), -25_508),
    ("19691231", (1969, 12, 31), -1),
    ("19700101", (1970, 1, 1), 0),
    ("20000229", (2000, 2, 29), 11_016),
    ("20000301", (2000, 3, 1), 11_017),
    ("20260228", (2026, 2, 28), 20_512),
    ("20260301", (2026, 3, 1), 20_513),
    ("21000228", (2100, 2, 28), 47_540),
    ("21000301", (2100, 3, 1), 47_541),
    ("99991231", (9999, 12, 31), 2_932_896),
];

const DAYS_REFUSED: &[(&str, FieldFault)] = &[
    ("", FieldFault::Empty),
    ("202602280", FieldFault::TooLong),
    ("2026022A", FieldFault::NotDigit),
    ("2026-228", FieldFault::NotDigit),
    ("2026022 ", FieldFault::NotDigit),
    ("2026022", FieldFault::NotDate),
    ("20260229", FieldFault::NotDate),
    ("20260001", FieldFault::NotDate),
    ("20261301", FieldFault::NotDate),
    ("20260100", FieldFault::NotDate),
];

#[test]
fn days_are_numbered_from_1970(rt: HostRuntime) {
    for &(text, date, number) in DAYS_READ {
        let day = day(&rt, text);
        same_at(&rt, text, &(day.year(), day.month(), day.day()), &date);
        same_at(&rt, text, &day.number(), &number);
        same_at(&rt, text, &date_write(day).as_slice(), &text.as_bytes());
    }
    for &(text, fault) in DAYS_REFUSED {
        same_at(&rt, text, &date_read(text.as_bytes()), &Err(fault));
    }
}

// The last day of each month but February, and the day after it.
const ENDS: &[(&str, &str)] = &[
    ("0131", "0132"),
    ("0331", "0332"),
    ("0430", "0431"),
    ("0531", "0532"),
    ("0630", "0631"),
    ("0731", "0732"),
    ("0831", "0832"),
    ("0930", "0931"),
    ("1031", "1032"),
    ("1130", "1131"),
    ("1231", "1232"),
];

const FEBRUARY: (&str, &str) = ("0228", "0229");

const FEBRUARY_OF_A_LEAP_YEAR: (&str, &str) = ("0229", "0230");

const YEARS: &[(&str, (&str, &str))] = &[
    ("0000", FEBRUARY_OF_A_LEAP_YEAR),
    ("1900", FEBRUARY),
    ("2000", FEBRUARY_OF_A_LEAP_YEAR),
    ("2024", FEBRUARY_OF_A_LEAP_YEAR),
    ("2026", FEBRUARY),
    ("2100", FEBRUARY),
    ("9996", FEBRUARY_OF_A_LEAP_YEAR),
    ("9999", FEBRUARY),
];

// The day that eight digits stand for, those of a year and those after it.
fn day_of(year: &str, rest: &str) -> Result<Day, FieldFault> {
    let mut text = *b"00000000";
    for (at, digit) in text.iter_mut().zip(year.bytes().chain(rest.bytes())) {
        *at = digit;
    }
    date_read(&text)
}

// The first of these days is of the year, and the second is none.
fn ends(rt: &impl Abort, year: &str, (last, after): (&str, &str)) {
    same_at(rt, year, &(last, day_of(year, last).is_ok()), &(last, true));
    let none = Err(FieldFault::NotDate);
    same_at(rt, year, &(after, day_of(year, after)), &(after, none));
}

#[test]
fn months_end_on_their_last_day(rt: HostRuntime) {
    for &(year, february) in YEARS {
        for &end in ENDS {
            ends(&rt, year, end);
        }
        ends(&rt, year, february);
    }
}

const DAYS_OF_2026: &[(&str, bool)] = &[
    ("20251231", false),
    ("20260101", true),
    ("20260228", true),
    ("20261231", true),
    ("20270101", false),
];

#[test]
fn periods_hold_both_their_ends(rt: HostRuntime) {
    let (first, last) = (day(&rt, "20260101"), day(&rt, "20261231"));
    let year = Period::new(first, last).expect(&rt, "a period");
    same!(rt; (year.first(), year.last()), (first, last));
    for &(text, is_within) in DAYS_OF_2026 {
        same_at(&rt, text, &year.contains(day(&rt, text)), &is_within);
    }
    same!(rt; Period::new(first, first).is_some(), true);
    same!(rt; Period::new(day(&rt, "20270101"), last), None);
}

// A stamp, its day, its time, and the time's hour and minute.
const STAMPS_READ: &[(&str, &str, &str, (u8, u8))] = &[
    ("202603020600", "20260302", "0600", (6, 0)),
    ("000002290000", "00000229", "0000", (0, 0)),
    ("999912312359", "99991231", "2359", (23, 59)),
];

const STAMPS_REFUSED: &[&str] = &[
    "202602300600",
    "202603022400",
    "202603020660",
    "20260302060",
    "2026030206000",
    "2026030206 0",
    "20260302",
    "",
];

const TIMES_REFUSED: &[&str] = &["2400", "0060", "9999", "600", "06000", "06:0"];

// The stamp of a text has this day and time, and this hour and minute.
fn is_stamp(rt: &impl Abort, text: &str, date: &str, time: &str, clock: (u8, u8)) {
    let stamp = Stamp::new(text.as_bytes()).expect(rt, "a stamp");
    same_at(
        rt,
        text,
        &date_write(stamp.date).as_slice(),
        &date.as_bytes(),
    );
    same_at(rt, text, &(stamp.time.hour(), stamp.time.minute()), &clock);
    same_at(rt, text, &Time::new(time.as_bytes()), &Some(stamp.time));
    same_at(rt, text, &stamp.digits().as_slice(), &text.as_bytes());
}

#[test]
fn stamps_are_a_day_and_a_time(rt: HostRuntime) {
    for &(text, date, time, clock) in STAMPS_READ {
        is_stamp(&rt, text, date, time, clock);
    }
    for &text in STAMPS_REFUSED {
        same_at(&rt, text, &Stamp::new(text.as_bytes()), &None);
    }
    for &text in TIMES_REFUSED {
        same_at(&rt, text, &Time::new(text.as_bytes()), &None);
    }
}
