ghost use Rattle.std.specs.Prelude.{◌≡◌, ◌++◌, IfOk, OnOk, option_map};
ghost use Rattle.std.specs.Option.{option_copied, unwrap_or};
ghost use Rattle.rx_explain_text.specs.Json.{accumulators_json, amounts_json, answer_json, approved_json};
ghost use Rattle.rx_explain_text.specs.Json.{asked_json, at_member, bill_json, bytes_json, bytes_member};
ghost use Rattle.rx_explain_text.specs.Json.{case_json, charge_json, code_json, codes_json, compared_json, counted_json};
ghost use Rattle.rx_explain_text.specs.Json.{coverage_json, day_member, decided_code, decided_json, decider_json, due_json};
ghost use Rattle.rx_explain_text.specs.Json.{end_json, explanation_object, family_json, family_left_json, field_json};
ghost use Rattle.rx_explain_text.specs.Json.{figures_json, from_json, front_json, header_json, named, number_member};
ghost use Rattle.rx_explain_text.specs.Json.{numbered_json, open_json, paid_json, passed_json, payable_json, place_json, price_json};
ghost use Rattle.rx_explain_text.specs.Json.{quoted, reference_json, refusal_json, refused_json, rejection_object, row_json};
ghost use Rattle.rx_explain_text.specs.Json.{said_member, share_json, soon_json, spoken_field, standing_json, text_member};
ghost use Rattle.rx_explain_text.specs.Json.{tier_json, traced_json, whole_part, workings_json};
ghost use Rattle.rx_explain_text.specs.Json.{elsewhere_json, whole_json};
ghost use Rattle.rx_explain_text.specs.RequestField.{field_number};
ghost use Rattle.rx_print.specs.Page.{Writes};

use crate::cited::Cited;
use crate::code_words::{case_name, expected, name};
use crate::compared::Compared;
use crate::figures::paid;
use crate::json_list::{Decided, Spoken, Standing, put_list};
use crate::reasons::{as_decided, days_between};
use crate::request_field::{field_bytes, field_name};
use rx_d0_values::{
    Amounts, Answer, Approved, Bill, BillParts, Codes, Paid, Pricing, Rejected, Transaction,
};
use rx_explain::{At, Explanation, Source, Traced, Workings};
use rx_fields::{Authorization, Cents, Code, Day, Lot, Memory, Period, Reference};
use rx_ledger::{Decision, Figures, Row, Share};
use rx_print::{Page, Style};
use std::alloc::Global;

/// An explanation as one JSON object on one line. Amounts are in cents.
#[tactic(auto, using(std::proofs::Common::append_assoc))]
pub fn explanation_json(
    alloc: Global,
    lot: Lot,
    figures: &Figures,
    explanation: &Explanation,
    cited: Cited<'_>,
    compared: Option<Compared>,
) -> Result<Vec<u8>, Memory>
    ensures { let c = cited.entry in IfOk result (λ text. text.items
        ≡ explanation_object lot figures.now explanation.now c.request.now (option_copied c.tier) compared) }
{
    let mut page = Page::new(alloc);
    put_header(&mut page, explanation, cited.request);
    put_case(&mut page, lot, figures, explanation);
    put_standing(&mut page, explanation);
    put_figures(&mut page, figures, explanation, cited.tier);
    put_compared(&mut page, compared);
    page.say("}\n");
    page.into_bytes()
}

/// The same of a record whose header is rejected.
#[tactic(auto, using(std::proofs::Common::append_assoc))]
pub fn rejection_json(
    alloc: Global,
    place: u64,
    rejected: &Rejected,
    request: &[u8],
    compared: Option<Compared>,
) -> Result<Vec<u8>, Memory>
    ensures { IfOk result (λ text. text.items ≡ rejection_object place rejected.now request.now compared) }
{
    let mut page = Page::new(alloc);
    put_place(&mut page, place);
    put_spoken(&mut page, "pharmacy", request, 0, Code::Provider);
    put_spoken(&mut page, "date", request, 0, Code::DateOfService);
    put_said(&mut page, "answer", "header rejected");
    put_codes(&mut page, rejected.codes.as_slice(), request, 0);
    put_compared(&mut page, compared);
    page.say("}\n");
    page.into_bytes()
}

// The object's front, and the record's place.
#[tactic(auto, using(std::proofs::Common::append_assoc), unfolding(crate::specs::Json::place_json))]
fn put_place(page: &mut Page, place: u64)
    ensures { Writes page.old page.new (place_json place) }
{
    page.say("{\"place\":");
    page.number(u128::from(place));
}

// The bytes of a request that a code speaks of.
#[tactic(auto, using(std::proofs::Common::append_assoc), unfolding(crate::specs::Json::bytes_member))]
fn put_spoken(page: &mut Page, name: &str, request: &[u8], nth: u64, code: Code)
    ensures { Writes page.old page.new (bytes_member name.now request.now nth code) }
{
    put_name(page, name);
    put_bytes(page, field_bytes(request, nth, code));
}

// What a response file has at the place of the record.
fn put_compared(page: &mut Page, compared: Option<Compared>)
    ensures { Writes page.old page.new (compared_json compared) }
{
    match compared {
        None => (),
        Some(Compared::Same) => put_said(page, "response", "same"),
        Some(Compared::Differs) => put_said(page, "response", "differs"),
        Some(Compared::Absent) => put_said(page, "response", "absent"),
        Some(Compared::OtherBatch(_)) => put_said(page, "response", "other batch"),
    }
}

#[tactic(auto, using(std::proofs::Common::append_assoc), unfolding(crate::specs::Json::header_json))]
fn put_header(page: &mut Page, explanation: &Explanation, request: &[u8])
    ensures { Writes page.old page.new (header_json explanation.now request.now) }
{
    put_place(page, explanation.at.place);
    put_number(page, "nth", explanation.at.nth);
    put_text(page, "pharmacy", explanation.provider.bytes());
    put_day(page, "date", explanation.date);
    put_asked(page, &explanation.transaction);
    put_answer(page, explanation, request);
    put_said(page, "case", case_name(&explanation.decision));
}

#[tactic(auto, using(std::proofs::Common::append_assoc))]
fn put_asked(page: &mut Page, transaction: &Transaction)
    ensures { Writes page.old page.new (asked_json transaction.now) }
{
    match transaction {
        Transaction::Bill(bill) => put_bill(page, bill.parts()),
        Transaction::Reverse(reversal) => {
            put_number(page, "rx", reversal.reference.get());
            put_text(page, "product", &reversal.product.digits())
        }
        Transaction::Faulty(faulty) => put_reference(page, faulty.reference),
    }
}

fn put_reference(page: &mut Page, reference: Option<Reference>)
    ensures { Writes page.old page.new (reference_json reference) }
{
    if let Some(reference) = reference {
        put_number(page, "rx", reference.get());
    }
}

#[tactic(auto, using(std::proofs::Common::append_assoc), unfolding(crate::specs::Json::bill_json))]
fn put_bill(page: &mut Page, parts: &BillParts)
    ensures { Writes page.old page.new (bill_json parts.now) }
{
    put_number(page, "rx", parts.reference.get());
    put_text(page, "family", parts.family.bytes());
    put_text(page, "person", parts.person.bytes());
    put_text(page, "product", &parts.product.digits());
    put_number(page, "quantity_thousandths", parts.quantity.get());
    put_number(page, "days", parts.days.get());
}

fn put_answer(page: &mut Page, explanation: &Explanation, request: &[u8])
    ensures { Writes page.old page.new (answer_json explanation.now.answer explanation.now request.now) }
{
    match &explanation.answer {
        Answer::Paid(paid) => put_paid(page, "paid", paid),
        Answer::Twice(paid) => put_paid(page, "duplicate", paid),
        Answer::Approved(approved) => put_approved(page, approved),
        Answer::Refused(refused) => put_refused(page, explanation, &refused.codes, request),
    }
}

#[tactic(auto, using(std::proofs::Common::append_assoc), unfolding(crate::specs::Json::paid_json))]
fn put_paid(page: &mut Page, answer: &str, paid: &Paid)
    ensures { Writes page.old page.new (paid_json answer.now paid.now) }
{
    put_numbered(page, answer, paid.number);
    put_pricing(page, &paid.pricing);
}

#[tactic(auto, using(std::proofs::Common::append_assoc), unfolding(crate::specs::Json::approved_json))]
fn put_approved(page: &mut Page, approved: &Approved)
    ensures { Writes page.old page.new (approved_json approved.now) }
{
    put_numbered(page, "taken back", approved.number);
    put_number(page, "total_paid", approved.total_paid.get());
}

// An answer with its authorization number.
#[tactic(auto, using(std::proofs::Common::append_assoc), unfolding(crate::specs::Json::numbered_json))]
fn put_numbered(page: &mut Page, answer: &str, number: Authorization)
    ensures { Writes page.old page.new (numbered_json answer.now number) }
{
    put_said(page, "answer", answer);
    put_name(page, "number");
    page.say("\"");
    page.authorization(number);
    page.say("\"");
}

#[tactic(auto, using(std::proofs::Common::append_assoc), unfolding(crate::specs::Json::amounts_json))]
fn put_pricing(page: &mut Page, pricing: &Pricing)
    ensures { Writes page.old page.new (amounts_json pricing.now) }
{
    let Amounts {
        ingredient_cost,
        dispensing_fee,
        deductible,
        copay,
        coinsurance,
    } = pricing.amounts();
    put_number(page, "ingredient_cost", ingredient_cost);
    put_number(page, "dispensing_fee", dispensing_fee);
    put_number(page, "deductible", deductible);
    put_number(page, "copay", copay);
    put_number(page, "coinsurance", coinsurance);
    put_number(page, "patient_pay", pricing.patient_pay());
    put_number(page, "total_paid", pricing.total_paid());
}

#[tactic(auto, using(std::proofs::Common::append_assoc), unfolding(crate::specs::Json::refused_json))]
fn put_refused(page: &mut Page, explanation: &Explanation, codes: &Codes, request: &[u8])
    ensures { Writes page.old page.new (refused_json explanation.now request.now codes.now) }
{
    put_said(page, "answer", "refused");
    put_refusal(page, explanation, codes, request);
}

// The code of a decision, or each code of a transaction that can't be read.
fn put_refusal(page: &mut Page, explanation: &Explanation, codes: &Codes, request: &[u8])
    ensures { Writes page.old page.new (refusal_json explanation.now.transaction explanation.now.at.nth request.now codes.now) }
{
    match &explanation.transaction {
        Transaction::Faulty(_) => put_codes(page, codes.as_slice(), request, explanation.at.nth),
        _ => put_decided(page, codes.as_slice()),
    }
}

#[tactic(auto, using(std::proofs::Common::append_assoc), unfolding(crate::specs::Json::decided_json))]
fn put_decided(page: &mut Page, codes: &[Code])
    ensures { Writes page.old page.new (decided_json codes.now) }
{
    put_list(page, "codes", &Decided, codes);
}

#[tactic(auto, using(std::proofs::Common::append_assoc), unfolding(crate::specs::Json::decided_code))]
pub(crate) fn put_decided_code(page: &mut Page, code: Code)
    ensures { Writes page.old page.new (decided_code code) }
{
    put_front(page, code);
    page.say("}");
}

// A code with its name.
#[tactic(auto, using(std::proofs::Common::append_assoc), unfolding(crate::specs::Json::front_json))]
fn put_front(page: &mut Page, code: Code)
    ensures { Writes page.old page.new (front_json code) }
{
    page.say("{\"code\":");
    put_string(page, &code.text());
    put_said(page, "name", name(code));
}

// Each code with its name, the field that it speaks of, that field's bytes and what is expected.
#[tactic(auto, using(std::proofs::Common::append_assoc), unfolding(crate::specs::Json::codes_json))]
fn put_codes(page: &mut Page, codes: &[Code], request: &[u8], nth: u64)
    ensures { Writes page.old page.new (codes_json request.now nth codes.now) }
{
    put_list(page, "codes", &Spoken { request, nth }, codes);
}

#[tactic(auto, using(std::proofs::Common::append_assoc), unfolding(crate::specs::Json::code_json))]
pub(crate) fn put_code(page: &mut Page, code: Code, request: &[u8], nth: u64)
    ensures { Writes page.old page.new (code_json request.now nth code) }
{
    put_front(page, code);
    put_said(page, "expected", expected(code));
    put_field(page, code, request, nth);
    page.say("}");
}

// The field that the code speaks of, and its bytes; of a syntax error those of the whole part.
fn put_field(page: &mut Page, code: Code, request: &[u8], nth: u64)
    ensures { Writes page.old page.new (field_json request.now nth code (field_number code)) }
{
    match field_name(code) {
        Some(field) => put_spoken_field(page, field, code, request, nth),
        None => put_whole_part(page, code, request, nth),
    }
}

#[tactic(auto, using(std::proofs::Common::append_assoc), unfolding(crate::specs::Json::spoken_field))]
fn put_spoken_field(page: &mut Page, field: &str, code: Code, request: &[u8], nth: u64)
    ensures { Writes page.old page.new (spoken_field field.now request.now nth code) }
{
    put_said(page, "field", field);
    put_spoken(page, "bytes", request, nth, code);
}

fn put_whole_part(page: &mut Page, code: Code, request: &[u8], nth: u64)
    ensures { Writes page.old page.new (whole_part request.now nth code) }
{
    match code {
        Code::Syntax => put_spoken(page, "bytes", request, nth, code),
        _ => (),
    }
}

// Bytes of a request as a string, in which each byte is a character; `null` where a field is absent.
fn put_bytes(page: &mut Page, bytes: Option<&[u8]>)
    ensures { Writes page.old page.new (bytes_json (option_map (λ b. b.now) bytes.entry)) }
{
    match bytes {
        Some(bytes) => put_string(page, bytes),
        None => page.say("null"),
    }
}

// What decided a billing that isn't paid.
fn put_case(page: &mut Page, lot: Lot, figures: &Figures, explanation: &Explanation)
    ensures { Writes page.old page.new (case_json explanation.now.decision lot figures.now explanation.now) }
{
    match &explanation.decision {
        Decision::BeforePeriod => put_day(page, "period_first", figures.period.first()),
        Decision::AfterCreation => put_day(page, "created", lot.created()),
        Decision::NotCovered(member) => put_coverage(page, &figures.period, &member.coverage),
        Decision::TooManyDays => put_number(page, "most_days", figures.max_days),
        Decision::TooSoon => put_soon(page, figures, explanation),
        _ => (),
    }
}

#[tactic(auto, using(std::proofs::Common::append_assoc), unfolding(crate::specs::Json::coverage_json))]
fn put_coverage(page: &mut Page, period: &Period, coverage: &Period)
    ensures { Writes page.old page.new (coverage_json period.now coverage.now) }
{
    put_day(page, "covered_first", coverage.first());
    put_day(page, "covered_last", coverage.last());
    put_day(page, "period_last", period.last());
}

// How few days of the earlier fill have passed.
fn put_soon(page: &mut Page, figures: &Figures, explanation: &Explanation)
    ensures { Writes page.old page.new (soon_json figures.now explanation.now explanation.now.standing) }
{
    if let Some(earlier) = &explanation.standing {
        put_passed(page, figures, explanation, earlier);
    }
}

#[tactic(auto, using(std::proofs::Common::append_assoc), unfolding(crate::specs::Json::passed_json))]
fn put_passed(page: &mut Page, figures: &Figures, explanation: &Explanation, earlier: &Traced)
    ensures { Writes page.old page.new (passed_json figures.now explanation.now earlier.now) }
{
    put_number(
        page,
        "days_passed",
        days_between(explanation.date, earlier.row.key.date),
    );
    put_number(page, "refill_percent", figures.refill_percent);
    put_open(page, explanation.open_from);
}

fn put_open(page: &mut Page, open_from: Option<Day>)
    ensures { Writes page.old page.new (open_json open_from) }
{
    match open_from {
        Some(day) => put_day(page, "first_date", day),
        None => page.say(",\"first_date\":null"),
    }
}

// The claim that decided, where one did.
fn put_standing(page: &mut Page, explanation: &Explanation)
    ensures { Writes page.old page.new (standing_json explanation.now.decision explanation.now.standing) }
{
    if let Some(traced) = &explanation.standing {
        put_decider(page, &as_decided(&explanation.decision, traced));
    }
}

#[tactic(auto, using(std::proofs::Common::append_assoc), unfolding(crate::specs::Json::decider_json))]
fn put_decider(page: &mut Page, traced: &Traced)
    ensures { Writes page.old page.new (decider_json traced.now) }
{
    put_name(page, "standing");
    put_traced(page, traced);
}

// The steps to the amounts of a claim that is paid, and the claims that count; nothing of another.
fn put_figures(page: &mut Page, figures: &Figures, explanation: &Explanation, tier: Option<&str>)
    ensures { Writes page.old page.new (figures_json (option_copied tier.entry) explanation.now.transaction figures.now explanation.now) }
{
    if let Some((bill, workings)) = paid(explanation) {
        put_payable(page, figures, explanation, bill, workings, tier);
    }
}

#[tactic(auto, using(std::proofs::Common::append_assoc), unfolding(crate::specs::Json::payable_json))]
fn put_payable(
    page: &mut Page,
    figures: &Figures,
    explanation: &Explanation,
    bill: &Bill,
    workings: &Workings,
    tier: Option<&str>,
)
    ensures { Writes page.old page.new (payable_json (option_copied tier.entry) figures.now explanation.now bill.now workings.now) }
{
    put_price(page, figures, bill, workings);
    put_workings(page, figures, workings, tier);
    put_counted(page, &explanation.counted);
}

// What was submitted and what the plan has next to it; the price is in hundredths of a cent.
#[tactic(auto, using(std::proofs::Common::append_assoc), unfolding(crate::specs::Json::price_json))]
fn put_price(page: &mut Page, figures: &Figures, bill: &Bill, workings: &Workings)
    ensures { Writes page.old page.new (price_json figures.now bill.now workings.now) }
{
    let parts = bill.parts();
    put_number(page, "submitted_cost", parts.ingredient_cost.get());
    put_number(page, "price_hundredths", workings.payment.drug.price);
    put_number(
        page,
        "submitted_fee",
        cents_or_nothing(parts.dispensing_fee),
    );
    put_number(page, "plan_fee", figures.fee);
    put_charge(page, parts.usual_charge);
}

// Which field the charge is of.
fn put_charge(page: &mut Page, usual: Option<Cents>)
    ensures { Writes page.old page.new (charge_json usual) }
{
    match usual {
        Some(_) => put_said(page, "charge_field", "DQ"),
        None => put_said(page, "charge_field", "DU"),
    }
}

fn cents_or_nothing(cents: Option<Cents>) -> u64
    ensures { result ≡ unwrap_or cents 0 }
{
    match cents {
        Some(cents) => cents.get(),
        None => 0,
    }
}

#[tactic(auto, using(std::proofs::Common::append_assoc), unfolding(crate::specs::Json::workings_json))]
fn put_workings(page: &mut Page, figures: &Figures, workings: &Workings, tier: Option<&str>)
    ensures { Writes page.old page.new (workings_json (option_copied tier.entry) figures.now workings.now) }
{
    put_number(page, "cost", workings.cost);
    put_number(page, "cost_before_charge", workings.ingredient_cost);
    put_number(page, "fee_before_charge", workings.dispensing_fee);
    put_number(page, "charge", workings.cap);
    put_accumulators(page, figures, workings);
    put_due(page, workings, tier);
}

// What was used of the plan's figures, and what is left of them.
#[tactic(auto, using(std::proofs::Common::append_assoc), unfolding(crate::specs::Json::accumulators_json))]
fn put_accumulators(page: &mut Page, figures: &Figures, workings: &Workings)
    ensures { Writes page.old page.new (accumulators_json figures.now workings.now) }
{
    put_number(page, "member_deductible", figures.member_deductible);
    put_total(
        page,
        "member_deductible_used",
        workings.payment.used.deductible,
    );
    put_number(page, "deductible_left", workings.deductible_left);
    put_family(page, figures.family_deductible, workings);
    put_number(page, "family_maximum", figures.family_maximum);
    put_total(
        page,
        "family_maximum_used",
        workings.payment.used.out_of_pocket,
    );
    put_number(page, "family_maximum_left", workings.room);
}

// The family's deductible, where the plan has one.
#[tactic(auto, using(std::proofs::Common::append_assoc))]
fn put_family(page: &mut Page, figure: Option<u64>, workings: &Workings)
    ensures { Writes page.old page.new (family_json figure workings.now.family_deductible_left workings.now) }
{
    match (figure, workings.family_deductible_left) {
        (Some(figure), Some(left)) => {
            put_family_left(page, figure, workings.payment.used.family_deductible, left)
        }
        _ => (),
    }
}

#[tactic(auto, using(std::proofs::Common::append_assoc), unfolding(crate::specs::Json::family_left_json))]
fn put_family_left(page: &mut Page, figure: u64, used: u128, left: u64)
    ensures { Writes page.old page.new (family_left_json figure used left) }
{
    put_number(page, "family_deductible", figure);
    put_total(page, "family_deductible_used", used);
    put_number(page, "family_deductible_left", left);
}

// What falls under the deductible and what is shared, before the family's maximum cuts them; the tier and its share.
#[tactic(auto, using(std::proofs::Common::append_assoc), unfolding(crate::specs::Json::due_json))]
fn put_due(page: &mut Page, workings: &Workings, tier: Option<&str>)
    ensures { Writes page.old page.new (due_json (option_copied tier.entry) workings.now) }
{
    put_number(page, "deductible_due", workings.under);
    put_number(page, "share_due", workings.share);
    put_tier(page, tier);
    put_share(page, workings.payment.drug.share);
}

// The name of the tier.
fn put_tier(page: &mut Page, tier: Option<&str>)
    ensures { Writes page.old page.new (tier_json (option_copied tier.entry)) }
{
    if let Some(name) = tier {
        put_text(page, "tier", name.as_bytes());
    }
}

fn put_share(page: &mut Page, share: Share)
    ensures { Writes page.old page.new (share_json share) }
{
    match share {
        Share::Copay(cents) => put_number(page, "tier_copay", cents),
        Share::Percent(percent) => put_number(page, "tier_percent", u64::from(percent)),
    }
}

#[tactic(auto, using(std::proofs::Common::append_assoc), unfolding(crate::specs::Json::counted_json))]
fn put_counted(page: &mut Page, counted: &[Traced])
    ensures { Writes page.old page.new (counted_json counted.now) }
{
    put_list(page, "counted", &Standing, counted);
}

#[tactic(auto, using(std::proofs::Common::append_assoc), unfolding(crate::specs::Json::traced_json))]
pub(crate) fn put_traced(page: &mut Page, traced: &Traced)
    ensures { Writes page.old page.new (traced_json traced.now) }
{
    match traced.source {
        Source::Elsewhere => put_elsewhere(page, &traced.row),
        Source::Opening | Source::Record(_) => put_whole(page, traced),
    }
}

// Of another pharmacy's claim the date and what counts.
#[tactic(auto, using(std::proofs::Common::append_assoc), unfolding(crate::specs::Json::elsewhere_json))]
fn put_elsewhere(page: &mut Page, row: &Row)
    ensures { Writes page.old page.new (elsewhere_json row.now) }
{
    page.say("{\"pharmacy\":null");
    put_day(page, "date", row.key.date);
    put_number(page, "deductible", row.pricing.amounts().deductible);
    put_number(page, "patient_pay", row.pricing.patient_pay());
    page.say("}");
}

#[tactic(auto, using(std::proofs::Common::append_assoc), unfolding(crate::specs::Json::whole_json))]
fn put_whole(page: &mut Page, traced: &Traced)
    ensures { Writes page.old page.new (whole_json traced.now) }
{
    put_row(page, &traced.row);
    put_from(page, traced.source);
    put_end(page, traced.taken_back);
    page.say("}");
}

#[tactic(auto, using(std::proofs::Common::append_assoc), unfolding(crate::specs::Json::row_json))]
fn put_row(page: &mut Page, row: &Row)
    ensures { Writes page.old page.new (row_json row.now) }
{
    page.say("{\"pharmacy\":");
    put_string(page, row.key.provider.bytes());
    put_number(page, "rx", row.key.reference.get());
    put_day(page, "date", row.key.date);
    put_text(page, "family", row.family.bytes());
    put_text(page, "person", row.person.bytes());
    put_text(page, "product", &row.product.digits());
    put_number(page, "days", row.days.get());
    put_pricing(page, &row.pricing);
}

// The transaction that was paid, where the claim is one of the batch.
fn put_from(page: &mut Page, source: Source)
    ensures { Writes page.old page.new (from_json source) }
{
    match source {
        Source::Opening | Source::Elsewhere => (),
        Source::Record(at) => put_at(page, "paid_by", at),
    }
}

fn put_end(page: &mut Page, taken_back: Option<At>)
    ensures { Writes page.old page.new (end_json taken_back) }
{
    if let Some(at) = taken_back {
        put_at(page, "taken_back_by", at);
    }
}

#[tactic(auto, using(std::proofs::Common::append_assoc), unfolding(crate::specs::Json::at_member))]
fn put_at(page: &mut Page, name: &str, at: At)
    ensures { Writes page.old page.new (at_member name.now at) }
{
    put_name(page, name);
    put_place(page, at.place);
    put_number(page, "nth", at.nth);
    page.say("}");
}

#[tactic(auto, using(std::proofs::Common::append_assoc), unfolding(crate::specs::Json::number_member))]
fn put_number(page: &mut Page, name: &str, number: u64)
    ensures { Writes page.old page.new (number_member name.now number) }
{
    put_total(page, name, u128::from(number));
}

#[tactic(auto, using(std::proofs::Common::append_assoc), unfolding(crate::specs::Json::number_member))]
fn put_total(page: &mut Page, name: &str, number: u128)
    ensures { Writes page.old page.new (number_member name.now number) }
{
    put_name(page, name);
    page.number(number);
}

#[tactic(auto, using(std::proofs::Common::append_assoc), unfolding(crate::specs::Json::day_member))]
fn put_day(page: &mut Page, name: &str, day: Day)
    ensures { Writes page.old page.new (day_member name.now day) }
{
    put_name(page, name);
    page.say("\"");
    page.day(day);
    page.say("\"");
}

// Words of this program, which need no escape.
#[tactic(auto, using(std::proofs::Common::append_assoc), unfolding(crate::specs::Json::said_member))]
fn put_said(page: &mut Page, name: &str, words: &str)
    ensures { Writes page.old page.new (said_member name.now words.now) }
{
    put_name(page, name);
    page.say("\"");
    page.say(words);
    page.say("\"");
}

#[tactic(auto, using(std::proofs::Common::append_assoc), unfolding(crate::specs::Json::text_member))]
fn put_text(page: &mut Page, name: &str, text: &[u8])
    ensures { Writes page.old page.new (text_member name.now text.now) }
{
    put_name(page, name);
    put_string(page, text);
}

// A name after the comma that ends the member before.
#[tactic(auto, using(std::proofs::Common::append_assoc), unfolding(crate::specs::Json::named))]
pub(crate) fn put_name(page: &mut Page, name: &str)
    ensures { Writes page.old page.new (named name.now) }
{
    page.say(",\"");
    page.say(name);
    page.say("\":");
}

// Bytes in quotes.
#[tactic(auto, using(std::proofs::Common::append_assoc), unfolding(crate::specs::Json::quoted))]
fn put_string(page: &mut Page, text: &[u8])
    ensures { Writes page.old page.new (quoted text.now) }
{
    page.say("\"");
    page.escaped(Style::Json, text);
    page.say("\"");
}
