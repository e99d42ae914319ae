ghost use Rattle.std.specs.Prelude.{◌≡◌, ◌++◌, Some, IfOk, OnOk, option_map};
ghost use Rattle.std.specs.Option.{option_copied};
ghost use Rattle.rx_explain_text.specs.Answered.{answer_text, answered_line, billed_text, numbered_text, product_said};
ghost use Rattle.rx_explain_text.specs.Answered.{reference_of, refused_count, refused_for, refused_text, reversed_text, rx_text};
ghost use Rattle.rx_explain_text.specs.Answered.{supply_said, taken_from, whose_text};
ghost use Rattle.rx_explain_text.specs.Claims.{at_text};
ghost use Rattle.rx_explain_text.specs.Rejections.{compared_line, compared_words, other_batch_text, rejected_line, rejection_words};
ghost use Rattle.rx_explain_text.specs.Rejections.{sent_text, trimmed_text};
ghost use Rattle.rx_explain_text.specs.Texts.{explanation_words};
ghost use Rattle.rx_print.specs.Page.{Writes};

use crate::cited::Cited;
use crate::codes::{put_codes, put_named};
use crate::compared::Compared;
use crate::counted::Listing;
use crate::figures::put_figures;
use crate::reasons::{put_batch_number, put_member, put_reason};
use crate::request_field::field_bytes;
use rx_d0_values::{Answer, Bill, BillParts, Rejected, Transaction};
use rx_explain::{At, Explanation};
use rx_fields::{Authorization, Code, Id, Lot, Memory, Person, Product, Reference, trimmed};
use rx_ledger::{Decision, Figures};
use rx_print::{Page, Style};
use std::alloc::Global;

/// An explanation in words: a line that says the answer and the pharmacy, and below it, set in, why (docs/RULES.md,
/// "Rules of adjudication"). The last line says what a response file has at the record's place, where one was looked at. Of
/// the claims of a sum the largest are listed, or all.
#[tactic(auto, using(std::proofs::Common::append_assoc))]
pub fn explanation_text(
    alloc: Global,
    lot: Lot,
    figures: &Figures,
    explanation: &Explanation,
    cited: Cited<'_>,
    compared: Option<Compared>,
    listing: Listing,
) -> Result<Vec<u8>, Memory>
    ensures { let c = cited.entry in IfOk result (λ text. text.items
        ≡ explanation_words listing lot figures.now explanation.now c.request.now (option_copied c.tier) compared) }
{
    let mut page = Page::new(alloc);
    put_header(&mut page, explanation);
    put_reason(&mut page, lot, figures, explanation, cited.request);
    put_figures(&mut page, figures, explanation, cited.tier, listing);
    put_compared(&mut page, explanation.at.place, compared);
    page.into_bytes()
}

/// The same of a record whose header is rejected, with its pharmacy and date of service as they were sent.
#[tactic(auto, using(std::proofs::Common::append_assoc))]
pub fn rejection_text(
    alloc: Global,
    figures: &Figures,
    place: u64,
    rejected: &Rejected,
    request: &[u8],
    compared: Option<Compared>,
) -> Result<Vec<u8>, Memory>
    ensures { IfOk result (λ text. text.items ≡ rejection_words figures.now.door place rejected.now request.now compared) }
{
    let mut page = Page::new(alloc);
    put_rejected(&mut page, place, request);
    put_codes(&mut page, &figures.door, &rejected.codes, request, 0);
    put_compared(&mut page, place, compared);
    page.into_bytes()
}

// The record with its pharmacy and its date as they were sent.
#[tactic(auto, using(std::proofs::Common::append_assoc), unfolding(crate::specs::Rejections::rejected_line))]
fn put_rejected(page: &mut Page, place: u64, request: &[u8])
    ensures { Writes page.old page.new (rejected_line place request.now) }
{
    page.say("record ");
    page.number(u128::from(place));
    page.say("  HEADER REJECTED, and with it each transaction  pharmacy ");
    put_sent(page, request, Code::Provider);
    page.say("  date ");
    put_sent(page, request, Code::DateOfService);
    page.say("\n");
}

// A field of the header, as it was sent.
#[tactic(auto, unfolding(crate::specs::Rejections::sent_text))]
fn put_sent(page: &mut Page, request: &[u8], code: Code)
    ensures { Writes page.old page.new (sent_text request.now code) }
{
    put_trimmed(page, field_bytes(request, 0, code));
}

fn put_trimmed(page: &mut Page, sent: Option<&[u8]>)
    ensures { Writes page.old page.new (trimmed_text (option_map (λ b. b.now) sent.entry)) }
{
    if let Some(bytes) = sent {
        page.escaped(Style::Terminal, trimmed(bytes));
    }
}

// Who is answered, and what.
#[tactic(auto, using(std::proofs::Common::append_assoc), unfolding(crate::specs::Answered::answered_line))]
fn put_header(page: &mut Page, explanation: &Explanation)
    ensures { Writes page.old page.new (answered_line explanation.now) }
{
    page.say("record ");
    put_at(page, explanation.at);
    page.say("  ");
    put_answer(page, &explanation.answer);
    page.say("  pharmacy ");
    page.escaped(Style::Terminal, explanation.provider.bytes());
    put_reference(page, &explanation.transaction);
    page.say("  ");
    page.day(explanation.date);
    put_whose(page, &explanation.transaction, &explanation.decision);
    page.say("\n");
}

/// The place of a transaction, as `2.1`.
#[tactic(auto, using(std::proofs::Common::append_assoc), unfolding(crate::specs::Claims::at_text))]
pub(crate) fn put_at(page: &mut Page, at: At)
    ensures { Writes page.old page.new (at_text at) }
{
    page.number(u128::from(at.place));
    page.say(".");
    page.number(u128::from(at.nth));
}

fn put_answer(page: &mut Page, answer: &Answer)
    ensures { Writes page.old page.new (answer_text answer.now) }
{
    match answer {
        Answer::Paid(paid) => put_numbered(page, "PAID ", paid.number),
        Answer::Twice(paid) => put_numbered(page, "DUPLICATE of ", paid.number),
        Answer::Approved(approved) => put_numbered(page, "TAKEN BACK ", approved.number),
        Answer::Refused(refused) => put_refused(page, refused.codes.as_slice()),
    }
}

/// Words and an authorization number.
#[tactic(auto, using(std::proofs::Common::append_assoc), unfolding(crate::specs::Answered::numbered_text))]
pub(crate) fn put_numbered(page: &mut Page, words: &str, number: Authorization)
    ensures { Writes page.old page.new (numbered_text words.now number) }
{
    page.say(words);
    page.authorization(number);
}

// The code of a refusal with its name, or how many codes a transaction has that can't be read.
fn put_refused(page: &mut Page, codes: &[Code])
    ensures { Writes page.old page.new (refused_text codes.now) }
{
    match codes {
        [code] => put_refused_for(page, *code),
        codes => put_refused_count(page, codes.len()),
    }
}

#[tactic(auto, using(std::proofs::Common::append_assoc), unfolding(crate::specs::Answered::refused_for))]
fn put_refused_for(page: &mut Page, code: Code)
    ensures { Writes page.old page.new (refused_for code) }
{
    page.say("REFUSED ");
    put_named(page, code);
}

#[tactic(auto, using(std::proofs::Common::append_assoc), unfolding(crate::specs::Answered::refused_count))]
fn put_refused_count(page: &mut Page, count: usize)
    ensures { Writes page.old page.new (refused_count count) }
{
    page.say("REFUSED ");
    page.number(count as u128);
    page.say(" codes");
}

fn put_reference(page: &mut Page, transaction: &Transaction)
    ensures { Writes page.old page.new (rx_text (reference_of transaction.now)) }
{
    if let Some(reference) = reference_of(transaction) {
        put_rx(page, reference);
    }
}

fn reference_of(transaction: &Transaction) -> Option<Reference>
    ensures { result ≡ reference_of transaction.now }
{
    match transaction {
        Transaction::Bill(bill) => Some(bill.parts().reference),
        Transaction::Reverse(reversal) => Some(reversal.reference),
        Transaction::Faulty(faulty) => faulty.reference,
    }
}

#[tactic(auto, using(std::proofs::Common::append_assoc))]
fn put_rx(page: &mut Page, reference: Reference)
    ensures { Writes page.old page.new (rx_text (Some reference)) }
{
    page.say("  rx ");
    page.number(u128::from(reference.get()));
}

// Who the transaction is for, and of what; of a claim that is taken back whose it is.
fn put_whose(page: &mut Page, transaction: &Transaction, decision: &Decision)
    ensures { Writes page.old page.new (whose_text transaction.now decision.now) }
{
    match transaction {
        Transaction::Bill(bill) => put_billed(page, bill),
        Transaction::Reverse(reversal) => put_reversed(page, reversal.product, decision),
        Transaction::Faulty(_) => put_taken_from(page, decision),
    }
}

#[tactic(auto, using(std::proofs::Common::append_assoc), unfolding(crate::specs::Answered::billed_text))]
fn put_billed(page: &mut Page, bill: &Bill)
    ensures { Writes page.old page.new (billed_text bill.now) }
{
    let parts = bill.parts();
    put_member(page, "  family ", ", person ", &parts.family, &parts.person);
    put_supply(page, parts);
}

// What is dispensed.
#[tactic(auto, using(std::proofs::Common::append_assoc), unfolding(crate::specs::Answered::supply_said))]
fn put_supply(page: &mut Page, parts: &BillParts)
    ensures { Writes page.old page.new (supply_said parts.now) }
{
    put_product(page, parts.product);
    page.say(", quantity ");
    page.thousandths(parts.quantity.get());
    page.say(", days ");
    page.number(u128::from(parts.days.get()));
}

#[tactic(auto, using(std::proofs::Common::append_assoc), unfolding(crate::specs::Answered::product_said))]
fn put_product(page: &mut Page, product: Product)
    ensures { Writes page.old page.new (product_said product) }
{
    page.say("  product ");
    page.put(&product.digits());
}

#[tactic(auto, using(std::proofs::Common::append_assoc), unfolding(crate::specs::Answered::reversed_text))]
fn put_reversed(page: &mut Page, product: Product, decision: &Decision)
    ensures { Writes page.old page.new (reversed_text product decision.now) }
{
    put_taken_from(page, decision);
    put_product(page, product);
}

// The family and the person of the claim that is taken back.
fn put_taken_from(page: &mut Page, decision: &Decision)
    ensures { Writes page.old page.new (taken_from decision.now) }
{
    if let Decision::TakenBack(row) = decision {
        put_member(page, "  family ", ", person ", &row.family, &row.person);
    }
}

// What a response file has at the place of the record, where one was looked at.
fn put_compared(page: &mut Page, place: u64, compared: Option<Compared>)
    ensures { Writes page.old page.new (compared_line place compared) }
{
    if let Some(compared) = compared {
        put_found(page, place, compared);
    }
}

#[tactic(auto, using(std::proofs::Common::append_assoc))]
fn put_found(page: &mut Page, place: u64, compared: Compared)
    ensures { Writes page.old page.new (compared_line place (Some compared)) }
{
    page.say("  record ");
    page.number(u128::from(place));
    put_compared_words(page, compared);
}

fn put_compared_words(page: &mut Page, compared: Compared)
    ensures { Writes page.old page.new (compared_words compared) }
{
    match compared {
        Compared::Same => page.say(" of the response file is this reply, byte for byte\n"),
        Compared::Differs => page.say(" of the response file DIFFERS from this reply\n"),
        Compared::Absent => page.say(" isn't there in the response file\n"),
        Compared::OtherBatch(lot) => put_other_batch(page, lot),
    }
}

#[tactic(auto, using(std::proofs::Common::append_assoc), unfolding(crate::specs::Rejections::other_batch_text))]
fn put_other_batch(page: &mut Page, lot: Lot)
    ensures { Writes page.old page.new (other_batch_text lot.number) }
{
    page.say(" isn't this reply: the response file ANSWERS batch ");
    put_batch_number(page, lot);
    page.say("\n");
}
