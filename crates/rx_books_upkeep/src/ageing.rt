ghost use Rattle.std.specs.Prelude.{◌≡◌};
ghost use Rattle.rx_books_upkeep.specs.Ageing.{is_before};

use rx_fields::Day;
use rx_ledger::Row;

/// Whether a claim is dated before the day.
pub(crate) fn is_before(day: Day, row: &Row) -> bool
    ensures { result ≡ is_before day row.now }
{
    row.key.date < day
}
