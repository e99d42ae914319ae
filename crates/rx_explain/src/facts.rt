ghost use Rattle.std.specs.Prelude.{◌≡◌, ◌≤◌, IfOk, filter};
ghost use Rattle.rx_ledger.specs.Basis.{HasPeriod, Holds};
ghost use Rattle.rx_ledger.specs.Ledger.{Ledger as LedgerLists};
ghost use Rattle.rx_ledger.specs.Named.{key_in};
ghost use Rattle.rx_explain.specs.Around.{AreTermsFor, HasRows};
ghost use Rattle.rx_explain.specs.Explained.{AreFacts};
ghost use Rattle.rx_explain.specs.Shown.{counted_for, is_counted, row_in};
ghost use Rattle.rx_fields.specs.declared.limits.TheConstants.{MOST_DETAILS};

use crate::at::At;
use crate::family::{is_same, longest_fill};
use crate::open_from::open_from;
use crate::subject::Subject;
use crate::workings::{Workings, workings_for};
use rx_d0_values::{Answer, Heard, Transaction};
use rx_fields::{Authorization, Day, Id, Memory, Period, Provider};
use rx_ledger::{Basis, Decision, Figures, Row, decide};
use std::alloc::Global;

/// What decided a transaction: facts of the ledger before it. Where the claims come from and what becomes of them is known
/// once the whole batch is adjudicated (`Facts::traced`).
#[derive(Drop)]
pub struct Facts {
    /// Where the transaction stands.
    pub at: At,
    /// The pharmacy.
    pub provider: Provider,
    /// The date of service.
    pub date: Day,
    /// The transaction's own authorization number.
    pub number: Authorization,
    /// What it asks.
    pub transaction: Transaction,
    /// The decision on it.
    pub decision: Decision,
    /// The answer.
    pub answer: Answer,
    /// The standing claim that decided, where one did.
    pub standing: Option<Row>,
    /// Of a claim that is too soon: the first date, from its own on, on which none of the member's fills of the product that
    /// stand before it is still too soon; None where the calendar has no such date.
    pub open_from: Option<Day>,
    /// Of a claim that is paid: the steps to the amounts.
    pub workings: Option<Workings>,
    /// Of a claim that is paid: the family's claims that count in the benefit period, ascending by fill key.
    pub counted: Vec<Row>,
}

/// The facts of a transaction on what answers as the ledger before it. `rows` are the claims that are visited: those of a
/// billing's family are all among them, in the order of their keys.
pub(crate) fn facts_on<S: Basis>(
    alloc: Global,
    subject: &Subject<'_>,
    basis: &S,
    rows: &[Row],
) -> Result<Facts, Memory>
    requires place { subject.now.at.place ≤ MOST_DETAILS }
    requires nth { subject.now.at.nth ≤ 4 }
    requires held { Holds (S.scope basis.now) (key_in subject.now.heard.now) (S.ledger basis.now) subject.now.transaction.now }
    requires rows { HasRows (S.ledger basis.now) rows.now subject.now.transaction.now }
    requires terms { AreTermsFor subject.now.sheet.now subject.now.transaction.now subject.now.terms.now }
    requires period { HasPeriod (S.scope basis.now).period subject.now.terms.now.figures.period }
    ensures { IfOk result (AreFacts subject.now.lot subject.now.sheet.now (S.ledger basis.now) subject.now.at
        (record { heard = subject.now.heard.now; transaction = subject.now.transaction.now })) }
{
    let Subject {
        sheet,
        terms,
        at,
        heard,
        transaction,
        ..
    } = *subject;
    let date = heard.date;
    let occasion = subject.occasion();
    let decision = decide(basis, &occasion, terms, transaction);
    Ok(Facts {
        at,
        provider: heard.provider,
        date,
        number: occasion.number,
        transaction: *transaction,
        decision,
        answer: decision.answer_to(occasion.number, transaction),
        standing: standing(sheet.figures(), heard, rows, transaction, &decision),
        open_from: open_from(sheet.figures(), date, rows, transaction, &decision),
        workings: workings_for(sheet, transaction, &decision),
        counted: counted_for(alloc, sheet.period(), rows, transaction, &decision)?,
    })
}

// The standing claim that decided: the fill that makes it too soon for longest, else the one that the decision names.
fn standing(
    figures: &Figures,
    heard: &Heard,
    rows: &[Row],
    transaction: &Transaction,
    decision: &Decision,
) -> Option<Row>
    requires { figures.now.refill_percent ≤ 100 }
    ensures { (L : LedgerLists) → HasRows L rows.now transaction.now
        → result ≡ row_in figures.now heard.now.provider heard.now.date L transaction.now decision.now }
{
    match (transaction, decision) {
        (Transaction::Bill(bill), Decision::TooSoon) => {
            longest_fill(figures, &heard.provider, heard.date, bill, rows)
        }
        _ => decision.row(),
    }
}

// The rows that are shown of a claim that is paid.
fn counted_for(
    alloc: Global,
    period: Period,
    rows: &[Row],
    transaction: &Transaction,
    decision: &Decision,
) -> Result<Vec<Row>, Memory>
    ensures { (L : LedgerLists) → HasRows L rows.now transaction.now
        → IfOk result (λ counted. counted.items ≡ counted_for period L transaction.now decision.now) }
{
    match (transaction, decision) {
        (Transaction::Bill(bill), Decision::Payable(_)) => {
            counted_rows(alloc, period, rows, &bill.parts().family)
        }
        _ => Ok(Vec::new(alloc)),
    }
}

// The family's rows that are dated within the period.
fn counted_rows(
    alloc: Global,
    period: Period,
    rows: &[Row],
    family: &Id,
) -> Result<Vec<Row>, Memory>
    ensures { IfOk result (λ counted. counted.items ≡ filter (is_counted period family.now) rows.now) }
{
    let mut counted = Vec::new(alloc);
    for row in rows {
        if is_counted(period, family, row) {
            counted.push(*row)?;
        }
    }
    Ok(counted)
}

// Whether the row is one of the family, and dated within the period.
fn is_counted(period: Period, family: &Id, row: &Row) -> bool
    ensures { result ≡ is_counted period family.now row.now }
{
    is_same(&row.family, family) && period.contains(row.key.date)
}
