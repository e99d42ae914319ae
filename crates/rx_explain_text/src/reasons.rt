ghost use Rattle.std.specs.Prelude.{◌≡◌, ◌++◌, OnOk};
ghost use Rattle.rx_fields.specs.Digits.{digits_text};
ghost use Rattle.rx_explain_text.specs.Claims.{as_decided, end_text, from_text, source_text, standing_text, whose_member};
ghost use Rattle.rx_explain_text.specs.Claims.{elsewhere_text, traced_text, whole_text};
ghost use Rattle.rx_explain_text.specs.Reasons.{again_of, again_text, bill_reason, coverage_text, covered_text, dated_text};
ghost use Rattle.rx_explain_text.specs.Reasons.{days_between, is_of_batch, stands_text};
ghost use Rattle.rx_explain_text.specs.Reasons.{earlier_text, ended_text, family_text, open_text, other_text, paid_text};
ghost use Rattle.rx_explain_text.specs.Reasons.{person_text, product_text, reason_text, reversal_reason, same_text, soon_text};
ghost use Rattle.rx_explain_text.specs.Reasons.{elsewhere_fill, fill_by, sum_text, supply_text, taken_text, unlisted_text};
ghost use Rattle.rx_print.specs.Page.{Writes};

use crate::codes::put_codes;
use crate::header::put_at;
use rx_d0_values::{Bill, BillParts, Pricing, Transaction};
use rx_explain::{At, Explanation, Source, Traced};
use rx_fields::{
    Authorization, Day, Days, Id, Lot, NUMBERS_OF_A_BATCH, Period, Person, Product, digits_write,
};
use rx_ledger::{Decision, Figures};
use rx_print::{Page, Style};

/// Why it was decided so, on a line that is set in; nothing of a claim that is paid, whose figures say it.
pub(crate) fn put_reason(
    page: &mut Page,
    lot: Lot,
    figures: &Figures,
    explanation: &Explanation,
    request: &[u8],
)
    ensures { Writes page.old page.new (reason_text explanation.now.transaction lot figures.now explanation.now request.now) }
{
    let nth = explanation.at.nth;
    match &explanation.transaction {
        Transaction::Bill(bill) => put_bill_reason(page, lot, figures, explanation, bill),
        Transaction::Reverse(reversal) => put_reversal_reason(page, explanation, reversal.product),
        Transaction::Faulty(faulty) => put_codes(page, &figures.door, &faulty.codes, request, nth),
    }
}

fn put_bill_reason(
    page: &mut Page,
    lot: Lot,
    figures: &Figures,
    explanation: &Explanation,
    bill: &Bill,
)
    ensures { Writes page.old page.new (bill_reason explanation.now.decision lot figures.now explanation.now bill.now) }
{
    match &explanation.decision {
        Decision::NoFamily => put_family(page, &bill.parts().family),
        Decision::NoPerson => put_person(page, bill.parts()),
        Decision::SameStands(row) => put_stands(page, lot, explanation, &row.pricing),
        Decision::OtherStands(_) => put_other(page, explanation),
        Decision::BeforePeriod => {
            put_dated(
                page,
                "  the benefit period begins on ",
                figures.period.first(),
            )
        }
        Decision::AfterCreation => put_dated(page, "  the batch was created on ", lot.created()),
        Decision::NotCovered(member) => {
            put_coverage(page, &figures.period, &member.coverage, explanation.date)
        }
        Decision::NotListed => put_unlisted(page, bill.parts().product),
        Decision::TooManyDays => put_supply(page, bill.parts().days, figures.max_days),
        Decision::TooSoon => put_too_soon(page, figures, explanation),
        _ => (),
    }
}

// The books don't know the family.
#[tactic(auto, using(std::proofs::Common::append_assoc), unfolding(crate::specs::Reasons::family_text))]
fn put_family(page: &mut Page, family: &Id)
    ensures { Writes page.old page.new (family_text family.now) }
{
    page.say("  the books list no member of family ");
    page.escaped(Style::Terminal, family.bytes());
    page.say("\n");
}

// The books don't know the person.
#[tactic(auto, using(std::proofs::Common::append_assoc), unfolding(crate::specs::Reasons::person_text))]
fn put_person(page: &mut Page, parts: &BillParts)
    ensures { Writes page.old page.new (person_text parts.now.family parts.now.person) }
{
    page.say("  the books list family ");
    page.escaped(Style::Terminal, parts.family.bytes());
    page.say(", but no person ");
    page.escaped(Style::Terminal, parts.person.bytes());
    page.say(" of it\n");
}

// Words and the day that they speak of.
#[tactic(auto, using(std::proofs::Common::append_assoc), unfolding(crate::specs::Reasons::dated_text))]
fn put_dated(page: &mut Page, words: &str, day: Day)
    ensures { Writes page.old page.new (dated_text words.now day) }
{
    page.say(words);
    page.day(day);
    page.say("\n");
}

// The plan doesn't pay for the product.
#[tactic(auto, using(std::proofs::Common::append_assoc), unfolding(crate::specs::Reasons::unlisted_text))]
fn put_unlisted(page: &mut Page, product: Product)
    ensures { Writes page.old page.new (unlisted_text product) }
{
    page.say("  the plan sheet doesn't list product ");
    page.put(&product.digits());
    page.say("\n");
}

// The plan doesn't pay for this many days.
#[tactic(auto, using(std::proofs::Common::append_assoc), unfolding(crate::specs::Reasons::supply_text))]
fn put_supply(page: &mut Page, days: Days, most: u64)
    ensures { Writes page.old page.new (supply_text days most) }
{
    page.say("  a supply for ");
    page.number(u128::from(days.get()));
    page.say(" days; the plan pays for at most ");
    page.number(u128::from(most));
    page.say("\n");
}

fn put_reversal_reason(page: &mut Page, explanation: &Explanation, product: Product)
    ensures { Writes page.old page.new (reversal_reason explanation.now.decision explanation.now product) }
{
    match &explanation.decision {
        Decision::NoneStands => {
            page.say("  no claim stands under this pharmacy, prescription and date\n")
        }
        Decision::OtherProduct(row) => put_product(page, explanation, row.product, product),
        Decision::TakenBack(row) => put_taken(page, explanation, &row.pricing),
        _ => (),
    }
}

// The claim that stands is of another product.
#[tactic(auto, using(std::proofs::Common::append_assoc), unfolding(crate::specs::Reasons::product_text))]
fn put_product(page: &mut Page, explanation: &Explanation, stands: Product, product: Product)
    ensures { Writes page.old page.new (product_text explanation.now stands product) }
{
    page.say("  the claim that stands is of product ");
    page.put(&stands.digits());
    page.say(", not ");
    page.put(&product.digits());
    page.say("; it is ");
    put_standing(page, explanation);
    page.say("\n");
}

// The claim is taken back.
#[tactic(auto, using(std::proofs::Common::append_assoc), unfolding(crate::specs::Reasons::taken_text))]
fn put_taken(page: &mut Page, explanation: &Explanation, pricing: &Pricing)
    ensures { Writes page.old page.new (taken_text explanation.now pricing.now) }
{
    page.say("  the claim ");
    put_standing(page, explanation);
    page.say(" stands no longer; the plan gets back ");
    page.money(u128::from(pricing.total_paid()));
    page.say("\n");
}

// The claim that stands, and whether the batch was adjudicated on the books already.
#[tactic(auto, using(std::proofs::Common::append_assoc), unfolding(crate::specs::Reasons::stands_text))]
fn put_stands(page: &mut Page, lot: Lot, explanation: &Explanation, pricing: &Pricing)
    ensures { Writes page.old page.new (stands_text lot explanation.now pricing.now) }
{
    put_same(page, explanation, pricing);
    put_again_of(page, lot, &explanation.standing);
}

fn put_again_of(page: &mut Page, lot: Lot, standing: &Option<Traced>)
    ensures { Writes page.old page.new (again_of lot standing.now) }
{
    if let Some(traced) = standing
        && is_of_batch(lot, traced.source, traced.row.number)
    {
        put_again(page, lot);
    }
}

// Whether the opening books have the claim by an answer of this batch's number.
fn is_of_batch(lot: Lot, source: Source, number: Authorization) -> bool
    ensures { result ≡ is_of_batch lot source number }
{
    match source {
        Source::Opening => number.get() / NUMBERS_OF_A_BATCH == u64::from(lot.number()),
        Source::Record(_) | Source::Elsewhere => false,
    }
}

#[tactic(auto, using(std::proofs::Common::append_assoc), unfolding(crate::specs::Reasons::again_text))]
fn put_again(page: &mut Page, lot: Lot)
    ensures { Writes page.old page.new (again_text lot.number) }
{
    page.say("  the opening books have it by batch ");
    put_batch_number(page, lot);
    page.say(": this batch was adjudicated on them already\n");
}

/// Writes a batch number in its seven digits.
pub(crate) fn put_batch_number(page: &mut Page, lot: Lot)
    ensures { Writes page.old page.new (digits_text 7 lot.number) }
{
    let digits: [u8; 7] = digits_write(u64::from(lot.number()));
    page.put(&digits);
}

#[tactic(auto, using(std::proofs::Common::append_assoc), unfolding(crate::specs::Reasons::same_text))]
fn put_same(page: &mut Page, explanation: &Explanation, pricing: &Pricing)
    ensures { Writes page.old page.new (same_text explanation.now pricing.now) }
{
    page.say("  this claim stands already: ");
    put_standing(page, explanation);
    put_paid(page, pricing);
}

// What was paid before.
#[tactic(auto, using(std::proofs::Common::append_assoc), unfolding(crate::specs::Reasons::paid_text))]
fn put_paid(page: &mut Page, pricing: &Pricing)
    ensures { Writes page.old page.new (paid_text pricing.now) }
{
    page.say("; nothing is paid again (member ");
    page.money(u128::from(pricing.patient_pay()));
    page.say(", plan ");
    page.money(u128::from(pricing.total_paid()));
    page.say(")\n");
}

#[tactic(auto, using(std::proofs::Common::append_assoc), unfolding(crate::specs::Reasons::other_text))]
fn put_other(page: &mut Page, explanation: &Explanation)
    ensures { Writes page.old page.new (other_text explanation.now) }
{
    page.say("  another claim stands under this pharmacy, prescription and date: ");
    put_standing(page, explanation);
    page.say("\n");
}

// What the date of service is outside of.
fn put_coverage(page: &mut Page, period: &Period, coverage: &Period, date: Day)
    ensures { Writes page.old page.new (coverage_text period.now coverage.now date) }
{
    if coverage.contains(date) {
        put_ended(page, period)
    } else {
        put_covered(page, coverage)
    }
}

#[tactic(auto, unfolding(crate::specs::Reasons::ended_text))]
fn put_ended(page: &mut Page, period: &Period)
    ensures { Writes page.old page.new (ended_text period.now) }
{
    put_dated(page, "  the benefit period ends on ", period.last());
}

#[tactic(auto, using(std::proofs::Common::append_assoc), unfolding(crate::specs::Reasons::covered_text))]
fn put_covered(page: &mut Page, coverage: &Period)
    ensures { Writes page.old page.new (covered_text coverage.now) }
{
    page.say("  the member is covered from ");
    page.day(coverage.first());
    put_dated(page, " to ", coverage.last());
}

// The earlier fill, and the sum that it fails.
fn put_too_soon(page: &mut Page, figures: &Figures, explanation: &Explanation)
    ensures { Writes page.old page.new (soon_text figures.now explanation.now explanation.now.standing) }
{
    let Some(earlier) = &explanation.standing else {
        return;
    };
    put_fill(page, figures, explanation, earlier);
}

fn put_fill(page: &mut Page, figures: &Figures, explanation: &Explanation, earlier: &Traced)
    ensures { Writes page.old page.new (fill_by earlier.now.source figures.now explanation.now earlier.now) }
{
    match earlier.source {
        Source::Elsewhere => {
            put_fill_elsewhere(page, earlier.row.key.date, explanation.open_from)
        }
        Source::Opening | Source::Record(_) => put_earlier(page, figures, explanation, earlier),
    }
}

// An earlier fill at another pharmacy.
#[tactic(auto, using(std::proofs::Common::append_assoc), unfolding(crate::specs::Reasons::elsewhere_fill))]
fn put_fill_elsewhere(page: &mut Page, date: Day, open_from: Option<Day>)
    ensures { Writes page.old page.new (elsewhere_fill date open_from) }
{
    page.say("  earlier fill at another pharmacy, of ");
    page.day(date);
    put_open_from(page, open_from);
}

#[tactic(auto, using(std::proofs::Common::append_assoc), unfolding(crate::specs::Reasons::earlier_text))]
fn put_earlier(page: &mut Page, figures: &Figures, explanation: &Explanation, earlier: &Traced)
    ensures { Writes page.old page.new (earlier_text figures.now explanation.now earlier.now) }
{
    let days = earlier.row.days.get();
    let passed = days_between(explanation.date, earlier.row.key.date);
    page.say("  earlier fill ");
    put_traced(page, earlier);
    page.say(", ");
    page.number(u128::from(days));
    page.say(" days: ");
    put_sum(page, passed, days, figures.refill_percent);
    put_open_from(page, explanation.open_from);
}

/// Days from one date to another, whichever is earlier.
pub(crate) fn days_between(date: Day, earlier: Day) -> u64
    ensures { result ≡ days_between date earlier }
{
    let passed = i64::from(date.number()) - i64::from(earlier.number());
    passed.unsigned_abs()
}

// From when on it isn't too soon, and the line's end.
fn put_open_from(page: &mut Page, open_from: Option<Day>)
    ensures { Writes page.old page.new (open_text open_from) }
{
    match open_from {
        Some(day) => put_dated(page, "; first date ", day),
        None => page.say("; the calendar has no date that is late enough\n"),
    }
}

// Days passed times 100 against days times the percentage.
#[tactic(auto, using(std::proofs::Common::append_assoc), unfolding(crate::specs::Reasons::sum_text))]
fn put_sum(page: &mut Page, passed: u64, days: u64, percent: u64)
    ensures { Writes page.old page.new (sum_text passed days percent) }
{
    page.number(u128::from(passed));
    page.say(" x 100 = ");
    page.number(u128::from(passed) * 100);
    page.say(" < ");
    page.number(u128::from(days));
    page.say(" x ");
    page.number(u128::from(percent));
    page.say(" = ");
    page.number(u128::from(days) * u128::from(percent));
}

// The claim that decided, where one did.
fn put_standing(page: &mut Page, explanation: &Explanation)
    ensures { Writes page.old page.new (standing_text explanation.now.decision explanation.now.standing) }
{
    if let Some(traced) = &explanation.standing {
        put_traced(page, &as_decided(&explanation.decision, traced));
    }
}

/// The claim that decided. One that this transaction takes back is taken back by no later one.
pub(crate) fn as_decided(decision: &Decision, traced: &Traced) -> Traced
    ensures { result ≡ as_decided decision.now traced.now }
{
    match decision {
        Decision::TakenBack(_) => Traced {
            taken_back: None,
            ..*traced
        },
        _ => *traced,
    }
}

/// A claim by its prescription and date, with where it comes from and what becomes of it; another pharmacy's by its date.
#[tactic(auto, using(std::proofs::Common::append_assoc), unfolding(crate::specs::Claims::traced_text))]
pub(crate) fn put_traced(page: &mut Page, traced: &Traced)
    ensures { Writes page.old page.new (traced_text traced.now) }
{
    match traced.source {
        Source::Elsewhere => put_elsewhere(page, traced.row.key.date),
        Source::Opening | Source::Record(_) => put_whole(page, traced),
    }
}

#[tactic(auto, using(std::proofs::Common::append_assoc), unfolding(crate::specs::Claims::elsewhere_text))]
fn put_elsewhere(page: &mut Page, date: Day)
    ensures { Writes page.old page.new (elsewhere_text date) }
{
    page.say("claim of ");
    page.day(date);
    page.say(" at another pharmacy");
}

#[tactic(auto, using(std::proofs::Common::append_assoc), unfolding(crate::specs::Claims::whole_text))]
fn put_whole(page: &mut Page, traced: &Traced)
    ensures { Writes page.old page.new (whole_text traced.now) }
{
    page.say("rx ");
    page.number(u128::from(traced.row.key.reference.get()));
    page.say(" of ");
    page.day(traced.row.key.date);
    page.say(" at ");
    page.escaped(Style::Terminal, traced.row.key.provider.bytes());
    put_member(page, " for ", "/", &traced.row.family, &traced.row.person);
    put_source(page, traced);
}

/// A person of a family, with the words before and between.
#[tactic(auto, using(std::proofs::Common::append_assoc), unfolding(crate::specs::Claims::whose_member))]
pub(crate) fn put_member(page: &mut Page, before: &str, between: &str, family: &Id, person: &Person)
    ensures { Writes page.old page.new (whose_member before.now between.now family.now person.now) }
{
    page.say(before);
    page.escaped(Style::Terminal, family.bytes());
    page.say(between);
    page.escaped(Style::Terminal, person.bytes());
}

// Where a claim comes from, and what takes it back later.
#[tactic(auto, using(std::proofs::Common::append_assoc), unfolding(crate::specs::Claims::source_text))]
fn put_source(page: &mut Page, traced: &Traced)
    ensures { Writes page.old page.new (source_text traced.now) }
{
    put_from(page, traced.source);
    put_end(page, traced.taken_back);
    page.say(")");
}

#[tactic(auto, using(std::proofs::Common::append_assoc))]
fn put_from(page: &mut Page, source: Source)
    ensures { Writes page.old page.new (from_text source) }
{
    match source {
        Source::Opening => page.say(" (opening books"),
        Source::Record(at) => {
            page.say(" (record ");
            put_at(page, at)
        }
        Source::Elsewhere => page.say(" (not shown"),
    }
}

#[tactic(auto, using(std::proofs::Common::append_assoc))]
fn put_end(page: &mut Page, taken_back: Option<At>)
    ensures { Writes page.old page.new (end_text taken_back) }
{
    if let Some(at) = taken_back {
        page.say("; taken back by ");
        put_at(page, at);
    }
}
