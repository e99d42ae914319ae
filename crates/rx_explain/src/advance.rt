ghost use Rattle.std.specs.Prelude.{◌≡◌, ◌≤◌, IfOk, OnOk};
ghost use Rattle.rx_d0_values.specs.declared.transaction.Transaction.TheVariants as asks;
ghost use Rattle.rx_explain.specs.Around.{AreTermsFor, HasRows};
ghost use Rattle.rx_explain.specs.Explained.{AreFacts};
ghost use Rattle.rx_fields.specs.declared.limits.TheConstants.{MOST_DETAILS};
ghost use Rattle.rx_ledger.specs.Answers.{after, answer};
ghost use Rattle.rx_ledger.specs.Basis.{HasPeriod, Holds, HoldsBill, HoldsReversal};
ghost use Rattle.rx_ledger.specs.Fold.{asked};
ghost use Rattle.rx_ledger.specs.Named.{key_in};

use crate::facts::{Facts, facts_on};
use crate::subject::Subject;
use rx_d0_values::{Answer, Bill, Reversal, Transaction};
use rx_fields::Memory;
use rx_ledger::{Basis, Row};
use std::alloc::Global;

/// What decides a transaction on what answers as the ledger before it, where it is adjudicated then: a claim that is paid
/// stands from then on, and one that is reversed no longer (docs/GUARANTEES.md, "Record and fold"). `rows` are the claims
/// that are visited: those of a billing's family are all among them, in the order of their keys. Without memory, nothing
/// is promised of what it is adjudicated on.
pub fn explain_next<S: Basis>(
    alloc: Global,
    subject: &Subject<'_>,
    basis: &mut S,
    rows: &[Row],
) -> Result<Facts, Memory>
    requires place { subject.now.at.place ≤ MOST_DETAILS }
    requires nth { subject.now.at.nth ≤ 4 }
    requires held { Holds (S.scope basis.old) (key_in subject.now.heard.now) (S.ledger basis.old) subject.now.transaction.now }
    requires rows { HasRows (S.ledger basis.old) rows.now subject.now.transaction.now }
    requires terms { AreTermsFor subject.now.sheet.now subject.now.transaction.now subject.now.terms.now }
    requires period { HasPeriod (S.scope basis.old).period subject.now.terms.now.figures.period }
    ensures facts { IfOk result (AreFacts subject.now.lot subject.now.sheet.now (S.ledger basis.old) subject.now.at
        (record { heard = subject.now.heard.now; transaction = subject.now.transaction.now })) }
    ensures after { let a = asked subject.now.lot subject.now.sheet.now subject.now.at.place subject.now.heard.now
        subject.now.at.nth in
        let t = subject.now.transaction.now in
        OnOk result (S.ledger basis.new ≡ after a (S.ledger basis.old) t (answer a (S.ledger basis.old) t)) }
    ensures scope { OnOk result (S.scope basis.new ≡ S.scope basis.old) }
{
    let facts = facts_on(alloc, subject, &*basis, rows)?;
    match subject.transaction {
        Transaction::Bill(bill) => stand_where_paid(subject, basis, bill, &facts.answer)?,
        Transaction::Reverse(reversal) => take_back(subject, basis, reversal)?,
        Transaction::Faulty(_) => {}
    }
    Ok(facts)
}

// A billing that was answered so, adjudicated: a claim that is paid stands.
fn stand_where_paid<S: Basis>(
    subject: &Subject<'_>,
    basis: &mut S,
    bill: &Bill,
    given: &Answer,
) -> Result<(), Memory>
    requires place { subject.now.at.place ≤ MOST_DETAILS }
    requires nth { subject.now.at.nth ≤ 4 }
    requires held { HoldsBill (S.scope basis.old) (key_in subject.now.heard.now) bill.now }
    requires given { let a = asked subject.now.lot subject.now.sheet.now subject.now.at.place subject.now.heard.now
        subject.now.at.nth in
        given.now ≡ answer a (S.ledger basis.old) (asks.Bill bill.now) }
    ensures after { let a = asked subject.now.lot subject.now.sheet.now subject.now.at.place subject.now.heard.now
        subject.now.at.nth in
        OnOk result (S.ledger basis.new ≡ after a (S.ledger basis.old) (asks.Bill bill.now) given.now) }
    ensures scope { OnOk result (S.scope basis.new ≡ S.scope basis.old) }
{
    if let Answer::Paid(paid) = given {
        basis.add(subject.occasion().row(bill, paid))?;
    }
    Ok(())
}

// A reversal adjudicated: a claim that is taken back no longer stands.
fn take_back<S: Basis>(
    subject: &Subject<'_>,
    basis: &mut S,
    reversal: &Reversal,
) -> Result<(), Memory>
    requires place { subject.now.at.place ≤ MOST_DETAILS }
    requires nth { subject.now.at.nth ≤ 4 }
    requires held { HoldsReversal (S.scope basis.old) (key_in subject.now.heard.now) (S.ledger basis.old) reversal.now }
    ensures after { let a = asked subject.now.lot subject.now.sheet.now subject.now.at.place subject.now.heard.now
        subject.now.at.nth in
        let t = asks.Reverse reversal.now in
        OnOk result (S.ledger basis.new ≡ after a (S.ledger basis.old) t (answer a (S.ledger basis.old) t)) }
    ensures scope { OnOk result (S.scope basis.new ≡ S.scope basis.old) }
{
    let key = subject.occasion().key(reversal.reference);
    if let Some(row) = basis.row_under(&key) {
        if row.product == reversal.product {
            basis.remove(&key)?;
        }
    }
    Ok(())
}
