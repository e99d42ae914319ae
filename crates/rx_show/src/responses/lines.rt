ghost use Rattle.std.specs.Prelude.{◌≡◌, ◌++◌, ◌∷◌, [], IfOk, codes};
ghost use Rattle.std.specs.Fmt.{decimal};
ghost use Rattle.std.specs.List.{flat_map};
ghost use Rattle.rx_d0_values.specs.Priced.{patient_pay, total_paid};
ghost use Rattle.rx_fields.specs.Digits.{digits_text};
ghost use Rattle.rx_d0_reply.specs.Fault.{fault_code};
ghost use Rattle.rx_print.specs.Page.{Writes};
ghost use Rattle.rx_settle.specs.Providers.{named};
ghost use Rattle.rx_show.specs.Lines.{line};
ghost use Rattle.rx_show.specs.ReplyLines.{after_blank, amount_words, answer_line, answer_lines, answer_words, found_lines};
ghost use Rattle.rx_show.specs.ReplyLines.{approved_words, known_words, outcome_lines, paid_words, refused_words};
ghost use Rattle.rx_show.specs.ReplyLines.{reply_lines, visit_words};

use super::found::Found;
use crate::lines::{put_place, put_rejected};
use rx_d0_reply::ReplyFault;
use rx_d0_values::{Answer, Approved, EchoParts, Outcome, Paid, Pricing, Refused};
use rx_fields::{Authorization, Memory, Provider, Reference, digits_write};
use rx_print::Page;
use std::alloc::Global;

/// The lines of what the details of a response file hold, in file order (docs/CLI.md, "replies"). Amounts are in
/// cents.
pub fn reply_lines(alloc: Global, found: &[Found]) -> Result<Vec<u8>, Memory>
    ensures { IfOk result (λ text. text.items ≡ reply_lines found.now) }
{
    let mut page = Page::new(alloc);
    for (before, one) in found.iter().enumerate() {
        put_found(&mut page, before + 1, one);
    }
    page.into_bytes()
}

// The lines of the record at a place.
#[tactic(auto, using(std::proofs::Common::append_assoc))]
fn put_found(page: &mut Page, place: usize, found: &Found)
    ensures { Writes page.old page.new (found_lines place found.now) }
{
    match found {
        Found::Reply(reply) => put_outcome(page, place, reply.echo.parts(), &reply.outcome),
        Found::Unreadable(fault) => {
            put_place(page, place, 0);
            put_fault(page, *fault)
        }
    }
}

// Why a record holds no reply, and the line's end.
#[tactic(auto, using(std::proofs::Common::append_assoc))]
fn put_fault(page: &mut Page, fault: ReplyFault)
    ensures { Writes page.old page.new (32 ∷ line (codes "unreadable" ∷ decimal (fault_code fault) ∷ [])) }
{
    page.put(b" unreadable ");
    page.number(u128::from(fault.code()));
    page.put(b"\n");
}

fn put_outcome(page: &mut Page, place: usize, echo: &EchoParts, outcome: &Outcome)
    ensures { Writes page.old page.new (outcome_lines place echo.now outcome.now) }
{
    match outcome {
        Outcome::Rejected(rejected) => put_rejected(page, place, rejected),
        Outcome::Heard(answers) => put_answers(page, place, echo, answers.as_slice()),
    }
}

fn put_answers(page: &mut Page, place: usize, echo: &EchoParts, answers: &[Answer])
    ensures { Writes page.old page.new (answer_lines place echo.now 1 answers.now) }
{
    for (before, answer) in answers.iter().enumerate() {
        put_line(page, place, before + 1, echo, answer);
    }
}

// The line of the nth answer of the record at a place.
#[tactic(auto, using(std::proofs::Common::append_assoc))]
fn put_line(page: &mut Page, place: usize, nth: usize, echo: &EchoParts, answer: &Answer)
    ensures { Writes page.old page.new (answer_line place echo.now nth answer.now) }
{
    put_place(page, place, nth);
    put_answer(page, echo, answer);
    page.put(b"\n");
}

#[tactic(auto, using(std::proofs::Common::append_assoc))]
fn put_answer(page: &mut Page, echo: &EchoParts, answer: &Answer)
    ensures { Writes page.old page.new (flat_map after_blank (answer_words echo.now answer.now)) }
{
    match answer {
        Answer::Paid(paid) => {
            put_visit(page, b"paid", echo);
            put_paid(page, paid)
        }
        Answer::Twice(paid) => {
            put_visit(page, b"duplicate", echo);
            put_paid(page, paid)
        }
        Answer::Approved(approved) => {
            put_visit(page, b"approved", echo);
            put_approved(page, approved)
        }
        Answer::Refused(refused) => {
            put_visit(page, b"refused", echo);
            put_refused(page, refused)
        }
    }
}

// The answer's word, the pharmacy and the date of service, each after a blank.
#[tactic(auto, using(std::proofs::Common::append_assoc))]
fn put_visit(page: &mut Page, word: &[u8], echo: &EchoParts)
    ensures { Writes page.old page.new (flat_map after_blank (word.now ∷ visit_words echo.now)) }
{
    page.put(b" ");
    page.put(word);
    page.put(b" ");
    put_provider(page, &echo.provider);
    page.put(b" ");
    page.put(&echo.date);
}

// The provider that a field names; nothing if it is no id.
fn put_provider(page: &mut Page, field: &[u8; 15])
    ensures { Writes page.old page.new (named field.now) }
{
    if let Ok(provider) = Provider::new(field) {
        page.put(provider.bytes());
    }
}

#[tactic(auto, using(std::proofs::Common::append_assoc))]
fn put_paid(page: &mut Page, paid: &Paid)
    ensures { Writes page.old page.new (flat_map after_blank (paid_words paid.now)) }
{
    put_claim(page, paid.reference, paid.number);
    put_amounts(page, &paid.pricing);
}

#[tactic(auto, using(std::proofs::Common::append_assoc))]
fn put_approved(page: &mut Page, approved: &Approved)
    ensures { Writes page.old page.new (flat_map after_blank (approved_words approved.now)) }
{
    put_claim(page, approved.reference, approved.number);
    put_number(page, approved.total_paid.get());
}

// The prescription reference number and the authorization number.
#[tactic(auto, using(std::proofs::Common::append_assoc))]
fn put_claim(page: &mut Page, reference: Reference, number: Authorization)
    ensures { Writes page.old page.new (flat_map after_blank (decimal reference ∷ digits_text 15 number ∷ [])) }
{
    put_number(page, reference.get());
    page.put(b" ");
    let digits: [u8; 15] = digits_write(number.get());
    page.put(&digits);
}

#[tactic(auto, using(std::proofs::Common::append_assoc))]
fn put_amounts(page: &mut Page, pricing: &Pricing)
    ensures { Writes page.old page.new (flat_map after_blank (amount_words pricing.now)) }
{
    let amounts = pricing.amounts();
    put_number(page, pricing.patient_pay());
    put_number(page, amounts.ingredient_cost);
    put_number(page, amounts.dispensing_fee);
    put_number(page, pricing.total_paid());
    put_number(page, amounts.deductible);
    put_number(page, amounts.copay);
    put_number(page, amounts.coinsurance);
}

// A number after a blank.
#[tactic(auto, using(std::proofs::Common::append_assoc))]
fn put_number(page: &mut Page, number: u64)
    ensures { Writes page.old page.new (after_blank (decimal number)) }
{
    page.put(b" ");
    page.number(u128::from(number));
}

#[tactic(auto, using(std::proofs::Common::append_assoc))]
fn put_refused(page: &mut Page, refused: &Refused)
    ensures { Writes page.old page.new (flat_map after_blank (refused_words refused.now)) }
{
    page.put(b" ");
    page.codes(&refused.codes);
    if let Some(reference) = refused.reference {
        put_number(page, reference.get());
    }
}
