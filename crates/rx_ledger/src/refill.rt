ghost use Rattle.std.specs.Prelude.{◌≡◌, ◌≤◌, ◌*◌, ◌-ℤ◌, ◌*ℤ◌, pos, int_lt};
ghost use Rattle.rx_fields.specs.Calendar.{day_number};
ghost use Rattle.rx_ledger.specs.Answers.{is_too_soon};

use crate::figures::Figures;
use crate::row::Row;
use rx_d0_values::Bill;
use rx_fields::{Day, Days};

/// Whether a standing claim of the family makes a billing on the date of service a refill too soon: it is a fill of
/// the person's with the product, dated no later, of whose days fewer than the percentage have passed.
#[tactic(auto, using(crate::proofs::SameText::same_text))]
pub fn is_too_soon(figures: &Figures, date: Day, bill: &Bill, row: &Row) -> bool
    requires { figures.now.refill_percent ≤ 100 }
    ensures { result ≡ is_too_soon figures.now date bill.now row.now }
{
    let parts = bill.parts();
    row.person == parts.person
        && row.product == parts.product
        && row.key.date <= date
        && has_days_left(row.key.date, row.days, date, figures.refill_percent)
}

/// Whether fewer than the percentage of a fill's days have passed on the date.
pub fn has_days_left(filled: Day, days: Days, date: Day, percent: u64) -> bool
    requires { percent ≤ 100 }
    ensures { let passed = day_number date -ℤ day_number filled in
        result ≡ int_lt (passed *ℤ pos 100) (pos (days * percent)) }
{
    let passed = i64::from(date.number()) - i64::from(filled.number());
    passed * 100 < (days.get() * percent) as i64
}
