ghost use Rattle.std.specs.Prelude.{◌≡◌, true, not, ◌||◌, if◌then◌else◌, List, []};
ghost use Rattle.std.specs.Ordering.{is_gt, is_lt};
ghost use Rattle.rx_fields.specs.Calendar.{day_cmp};
ghost use Rattle.rx_fields.specs.Numbered.{is_within};
ghost use Rattle.rx_d0_values.specs.declared.transaction.Transaction.TheVariants as asks;
ghost use Rattle.rx_ledger.specs.Basis.{HasPeriod, Holds, HoldsBill};
ghost use Rattle.rx_ledger.specs.Claims.{asked_on};
ghost use Rattle.rx_ledger.specs.Decisions.{decision_of, is_same_claim, key_of, payment, used_by};
ghost use Rattle.rx_ledger.specs.Plan.{is_drug};
ghost use Rattle.rx_ledger.specs.TermList.{drugs_in};
ghost use Rattle.rx_ledger.specs.declared.decision.Decision.TheVariants as decisions;
ghost use Rattle.rx_ledger.specs.declared.row.Row.{Row};
ghost use Rattle.rx_ledger.specs.declared.sheet.Listed.{Listed};

use crate::basis::Basis;
use crate::decision::{Decision, Payment};
use crate::drug::Drug;
use crate::figures::Figures;
use crate::member::{Member, MemberKey};
use crate::occasion::Occasion;
use crate::price::Allowance;
use crate::row::Row;
use crate::share::{Used, shared};
use crate::terms::Terms;
use rx_d0_values::{Bill, Reversal, Transaction};
use rx_fields::Day;

/// The decision on a transaction: the tables of adjudication from top to bottom (docs/RULES.md, "Rules of
/// adjudication"). Nothing is looked up before its row's turn comes.
pub fn decide<S: Basis>(
    basis: &S,
    occasion: &Occasion,
    terms: &Terms,
    transaction: &Transaction,
) -> Decision
    requires figures { occasion.now.figures ≡ terms.now.figures }
    requires period { HasPeriod (S.scope basis.now).period terms.now.figures.period }
    requires held { Holds (S.scope basis.now) (key_of (asked_on occasion.now [])) (S.ledger basis.now) transaction.now }
    ensures { let asked = asked_on occasion.now (drugs_in terms.now.places) in
        result ≡ decision_of asked (S.ledger basis.now) transaction.now }
{
    match transaction {
        Transaction::Bill(bill) => decide_bill(basis, occasion, terms, bill),
        Transaction::Reverse(reversal) => decide_reversal(basis, occasion, reversal),
        Transaction::Faulty(faulty) => Decision::Unread(*faulty),
    }
}

fn decide_bill<S: Basis>(basis: &S, occasion: &Occasion, terms: &Terms, bill: &Bill) -> Decision
    requires figures { occasion.now.figures ≡ terms.now.figures }
    requires period { HasPeriod (S.scope basis.now).period terms.now.figures.period }
    requires held { HoldsBill (S.scope basis.now) (key_of (asked_on occasion.now [])) bill.now }
    ensures { let asked = asked_on occasion.now (drugs_in terms.now.places) in
        result ≡ decision_of asked (S.ledger basis.now) (asks.Bill bill.now) }
{
    let parts = bill.parts();
    let figures = terms.figures();
    let date = occasion.date;
    if !basis.has_members(&parts.family) {
        return Decision::NoFamily;
    }
    let Some(member) = basis.member(&MemberKey::of(bill)) else {
        return Decision::NoPerson;
    };
    if let Some(row) = basis.row_under(&occasion.key(parts.reference)) {
        return standing(bill, row);
    }
    if is_before_period(figures, date) {
        return Decision::BeforePeriod;
    }
    if is_after_creation(occasion) {
        return Decision::AfterCreation;
    }
    if is_outside(&member, figures, date) {
        return Decision::NotCovered(member);
    }
    let Some(drug) = terms.drug(parts.product) else {
        return Decision::NotListed;
    };
    if parts.days.get() > figures.max_days {
        return Decision::TooManyDays;
    }
    if basis.is_too_soon(figures, date, bill) {
        return Decision::TooSoon;
    }
    let used = basis.used(figures, &MemberKey::of(bill));
    Decision::Payable(payment(figures, drug, used, bill))
}

// A row stands under the fill key of a billing.
fn standing(bill: &Bill, row: Row) -> Decision
    ensures { result ≡ (if is_same_claim bill.now row then decisions.SameStands row else decisions.OtherStands row) }
{
    if is_same_claim(bill, &row) {
        return Decision::SameStands(row);
    }
    Decision::OtherStands(row)
}

// Whether the row is of the same family, person, product, quantity and days.
#[tactic(auto, using(crate::proofs::SameText::same_text))]
fn is_same_claim(bill: &Bill, row: &Row) -> bool
    ensures { result ≡ is_same_claim bill.now row.now }
{
    let parts = bill.parts();
    row.family == parts.family
        && row.person == parts.person
        && row.product == parts.product
        && row.quantity == parts.quantity
        && row.days == parts.days
}

fn is_before_period(figures: &Figures, date: Day) -> bool
    ensures { result ≡ is_lt (day_cmp date figures.now.period.first) }
{
    date < figures.period.first()
}

fn is_after_creation(occasion: &Occasion) -> bool
    ensures { result ≡ is_gt (day_cmp occasion.now.date occasion.now.lot.created) }
{
    occasion.date > occasion.lot.created()
}

// Whether the date is outside the member's coverage, or after the period.
fn is_outside(member: &Member, figures: &Figures, date: Day) -> bool
    ensures { result ≡ (not (is_within member.now.coverage date) || is_gt (day_cmp date figures.now.period.last)) }
{
    !member.coverage.contains(date) || date > figures.period.last()
}

// What a billing for a listed drug is paid by, where this much of the plan's figures is used.
fn payment(figures: &Figures, drug: Drug, used: Used, bill: &Bill) -> Payment
    requires { is_drug drug ≡ true }
    ensures { (rows : List Row) → used ≡ used_by figures.now bill.now.person rows
        → result ≡ payment figures.now drug bill.now rows }
{
    let allowance = Allowance::new(drug.price, figures.fee, bill);
    Payment {
        drug,
        used,
        pricing: shared(figures, drug.share, used, allowance),
    }
}

fn decide_reversal<S: Basis>(basis: &S, occasion: &Occasion, reversal: &Reversal) -> Decision
    requires { (S.scope basis.now).has_key (key_of (asked_on occasion.now []) reversal.now.reference) ≡ true }
    ensures { (drugs : List Listed)
        → result ≡ decision_of (asked_on occasion.now drugs) (S.ledger basis.now) (asks.Reverse reversal.now) }
{
    match basis.row_under(&occasion.key(reversal.reference)) {
        None => Decision::NoneStands,
        Some(row) if row.product == reversal.product => Decision::TakenBack(row),
        Some(row) => Decision::OtherProduct(row),
    }
}
