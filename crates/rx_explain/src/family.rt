ghost use Rattle.std.specs.Prelude.{◌≡◌, ◌≤◌, None, filter};
ghost use Rattle.std.specs.List.{fold};
ghost use Rattle.std.specs.Ordering.{is_lt};
ghost use Rattle.rx_ledger.specs.Decisions.{is_too_soon};
ghost use Rattle.rx_ledger.specs.Members.{is_same};
ghost use Rattle.rx_ledger.specs.Rows.{claimed_by};
ghost use Rattle.rx_explain.specs.Opens.{is_early_fill};
ghost use Rattle.rx_explain.specs.Shown.{binds_until, fill_cmp, first_of_two, first_with, rank};

use crate::visible::numbers_of;
use rx_d0_values::Bill;
use rx_fields::{Day, Id, Provider};
use rx_ledger::{Figures, Row, is_too_soon};
use std::cmp::Ordering;

/// Whether these are one family.
#[tactic(auto, using(rx_ledger::proofs::SameText::same_text))]
pub(crate) fn is_same(a: &Id, b: &Id) -> bool
    ensures { result ≡ is_same a.now b.now }
{
    a == b
}

/// Whether the row is one of the billing's family, and makes it too soon on a date.
pub(crate) fn is_early_fill(figures: &Figures, date: Day, bill: &Bill, row: &Row) -> bool
    requires { figures.now.refill_percent ≤ 100 }
    ensures { result ≡ is_early_fill figures.now date bill.now row.now }
{
    is_same(&row.family, &bill.parts().family) && is_too_soon(figures, date, bill, row)
}

/// Of the family's fills that make a pharmacy's billing too soon on a date, the one that does so for longest; of those that do so
/// for as long, the first by date, an own one before others', and by amounts: no name of other pharmacies decides.
pub(crate) fn longest_fill(
    figures: &Figures,
    provider: &Provider,
    date: Day,
    bill: &Bill,
    rows: &[Row],
) -> Option<Row>
    requires { figures.now.refill_percent ≤ 100 }
    ensures { result ≡ fold (first_with (fill_cmp figures.now provider.now)) None
        (filter (is_too_soon figures.now date bill.now) (filter (claimed_by bill.now.family) rows.now)) }
{
    let mut longest = None;
    for row in rows {
        if is_early_fill(figures, date, bill, row) {
            longest = longest_with(figures, provider, longest, *row);
        }
    }
    longest
}

// The longest fill so far and one more.
fn longest_with(
    figures: &Figures,
    provider: &Provider,
    longest: Option<Row>,
    row: Row,
) -> Option<Row>
    requires { figures.now.refill_percent ≤ 100 }
    ensures { result ≡ first_with (fill_cmp figures.now provider.now) longest row }
{
    match longest {
        None => Some(row),
        Some(best) => Some(longer_of(figures, provider, best, row)),
    }
}

// Of two fills the one that binds longer; where both bind as long, the first by date, owner and amounts.
fn longer_of(figures: &Figures, provider: &Provider, best: Row, row: Row) -> Row
    requires { figures.now.refill_percent ≤ 100 }
    ensures { result ≡ first_of_two (fill_cmp figures.now provider.now) best row }
{
    if compare(figures, provider, &row, &best).is_lt() {
        row
    } else {
        best
    }
}

// Which of two fills goes first.
fn compare(figures: &Figures, provider: &Provider, one: &Row, other: &Row) -> Ordering
    requires { figures.now.refill_percent ≤ 100 }
    ensures { result ≡ fill_cmp figures.now provider.now one.now other.now }
{
    match binds_until(figures, other).cmp(&binds_until(figures, one)) {
        Ordering::Equal => rank(provider, one).cmp(&rank(provider, other)),
        decided => decided,
    }
}

// A fill's date and amounts, and whether it is the pharmacy's own.
fn rank(provider: &Provider, fill: &Row) -> [u64; 9]
    ensures { result ≡ rank provider.now fill.now }
{
    numbers_of(is_own(provider, fill), fill)
}

#[tactic(auto, using(rx_ledger::proofs::SameText::same_text))]
fn is_own(provider: &Provider, fill: &Row) -> bool
    ensures { result ≡ is_same fill.now.key.provider provider.now }
{
    fill.key.provider == *provider
}

// Until when a fill makes billings too soon, in hundredths of days from 1970-01-01.
fn binds_until(figures: &Figures, fill: &Row) -> i64
    requires { figures.now.refill_percent ≤ 100 }
    ensures { result ≡ binds_until figures.now fill.now }
{
    i64::from(fill.key.date.number()) * 100 + (fill.days.get() * figures.refill_percent) as i64
}
