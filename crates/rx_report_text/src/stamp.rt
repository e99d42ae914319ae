ghost use Rattle.std.specs.Prelude.{◌≡◌};
ghost use Rattle.rx_report_text.specs.Stamps.{clock_words, stamp_words};

use rx_fields::{Stamp, Time, date_write, digits_write};
use rx_print::dashed_digits;

/// A stamp as people read it, as `2026-03-17 06:00`.
pub(crate) fn stamp_words(stamp: Stamp) -> [u8; 16]
    ensures { result ≡ stamp_words stamp }
{
    let [b0, b1, b2, b3, b4, b5, b6, b7, b8, b9] = dashed_digits(date_write(stamp.date));
    let [c0, c1, c2, c3, c4] = clock_words(stamp.time);
    [
        b0, b1, b2, b3, b4, b5, b6, b7, b8, b9, b' ', c0, c1, c2, c3, c4,
    ]
}

// The hour and the minute with a colon between them.
fn clock_words(time: Time) -> [u8; 5]
    ensures { result ≡ clock_words time }
{
    let [h0, h1]: [u8; 2] = digits_write(u64::from(time.hour()));
    let [m0, m1]: [u8; 2] = digits_write(u64::from(time.minute()));
    [h0, h1, b':', m0, m1]
}
