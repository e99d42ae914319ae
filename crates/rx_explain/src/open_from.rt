ghost use Rattle.std.specs.Prelude.{◌≡◌, ◌≤◌, ◌&&◌};
ghost use Rattle.std.specs.List.{list_any};
ghost use Rattle.rx_ledger.specs.Ledger.{Ledger};
ghost use Rattle.rx_explain.specs.Around.{HasRows};
ghost use Rattle.rx_explain.specs.Opens.{IsFirstOpen, IsOpenFrom, is_early_fill};

use crate::family::is_early_fill;
use rx_d0_values::{Bill, Transaction};
use rx_fields::Day;
use rx_ledger::{Decision, Figures, Row};

/// Of a billing that is too soon: the first date, from its own on, on which none of the member's fills of the product is
/// still too soon, as they stand among these rows; None where the calendar ends before, and of every other transaction.
pub(crate) fn open_from(
    figures: &Figures,
    date: Day,
    rows: &[Row],
    transaction: &Transaction,
    decision: &Decision,
) -> Option<Day>
    requires { figures.now.refill_percent ≤ 100 }
    ensures { (L : Ledger) → HasRows L rows.now transaction.now
        → IsOpenFrom figures.now date L transaction.now decision.now result }
{
    match (transaction, decision) {
        (Transaction::Bill(bill), Decision::TooSoon) => first_open(figures, date, bill, rows),
        _ => None,
    }
}

// The first date from this one on on which none of the rows is an early fill.
fn first_open(figures: &Figures, date: Day, bill: &Bill, rows: &[Row]) -> Option<Day>
    requires { figures.now.refill_percent ≤ 100 }
    ensures { IsFirstOpen figures.now rows.now bill.now date result }
{
    let mut day = date;
    loop {
        let next = day.plus(1);
        if !has_early_fill(figures, day, bill, rows) {
            return Some(day);
        }
        day = next?;
    }
}

fn has_early_fill(figures: &Figures, date: Day, bill: &Bill, rows: &[Row]) -> bool
    requires { figures.now.refill_percent ≤ 100 }
    ensures { result ≡ list_any (is_early_fill figures.now date bill.now) rows.now }
{
    rows.iter()
        .any(|row| is_early_fill(figures, date, bill, row))
}
