//! What stands for the options of a run that are left out: the time of the clock, and the processors.
use jiff::Timestamp;
use jiff::civil::DateTime;
use jiff::tz::{SystemTimeZone, TimeZone, TimeZoneDatabase};
use rx_fields::{MOST_WORKERS, Memory};
use std::thread::{Threads, available_parallelism};
use std::time::Clock;

/// The stamp that is given, or else the local time; empty where the system doesn't say the time, so that the run refuses it.
pub fn stamp_or_now(rt: &HostRuntime, given: Option<&str>) -> Result<String, Memory> {
    match given {
        Some(stamp) => Ok(String::from_str(rt.alloc(), stamp)?),
        None => Ok(now(rt).unwrap_or(String::new(rt.alloc()))),
    }
}

/// The number of workers that is given, or else that of the processors, as far as a run takes it.
pub fn workers_or_all<R: Threads>(threads: &R, given: Option<u16>) -> u16 {
    match (given, available_parallelism(threads)) {
        (Some(workers), _) => workers,
        (None, Ok(processors)) => u16::try_from(
            processors.get().min(usize::from(MOST_WORKERS)),
        ).unwrap_or(1),
        (None, Err(_)) => 1,
    }
}

/// The local time as people read it, as `2026-11-28 09:55`; empty where the system doesn't say it.
pub fn now_in_words(rt: &HostRuntime) -> String {
    words_at(rt).unwrap_or(String::new(rt.alloc()))
}

fn words_at(rt: &HostRuntime) -> Option<String> {
    let shown = shown_now(rt)?;
    let (year, month, day) = (shown.year(), shown.month(), shown.day());
    let (hour, minute) = (shown.hour(), shown.minute());
    format!(in rt.alloc(); "{year:04}-{month:02}-{day:02} {hour:02}:{minute:02}").ok()
}

// The time of the clock as a stamp.
fn now(rt: &HostRuntime) -> Option<String> {
    stamp_at(rt, shown_now(rt)?)
}

// What a clock shows now.
fn shown_now(rt: &HostRuntime) -> Option<DateTime> {
    let seconds = rt.since_1970().ok()?.as_secs();
    let time = Timestamp::from_second(i64::try_from(seconds).ok()?).ok()?;
    Some(shown_at(rt, time))
}

fn stamp_at(rt: &HostRuntime, shown: DateTime) -> Option<String> {
    let (year, month, day) = (shown.year(), shown.month(), shown.day());
    let (hour, minute) = (shown.hour(), shown.minute());
    format!(in rt.alloc(); "{year:04}{month:02}{day:02}{hour:02}{minute:02}").ok()
}

// What a clock shows in the zone of the system, as far as it says one: that of `TZ`, or of `/etc/localtime`.
fn shown_at(rt: &HostRuntime, time: Timestamp) -> DateTime {
    match shown_in_zone(rt, time) {
        Some(shown) => shown,
        None => TimeZone::UTC.to_datetime(time),
    }
}

fn shown_in_zone(rt: &HostRuntime, time: Timestamp) -> Option<DateTime> {
    let system = SystemTimeZone::read(rt).ok()?;
    match shown_by(&system, &TimeZoneDatabase::new(rt.alloc()), time) {
        Some(shown) => Some(shown),
        None => shown_by(&system, &TimeZoneDatabase::from_env(rt).ok()?, time),
    }
}

// The same, where the zone needs no file or is one of these.
fn shown_by(
    system: &SystemTimeZone,
    zones: &TimeZoneDatabase,
    time: Timestamp,
) -> Option<DateTime> {
    Some(system.time_zone(zones).ok()?.to_datetime(time))
}
