ghost use Rattle.std.specs.Prelude.{◌≡◌};
ghost use Rattle.rx_print.specs.Dates.{dashed_digits};

/// The eight digits of a date with a dash before the month and before the day, as `2026-03-05`.
pub fn dashed_digits(date: [u8; 8]) -> [u8; 10]
    ensures { result ≡ dashed_digits date }
{
    let [y0, y1, y2, y3, m0, m1, d0, d1] = date;
    [y0, y1, y2, y3, b'-', m0, m1, b'-', d0, d1]
}
