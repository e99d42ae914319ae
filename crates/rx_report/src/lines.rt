ghost use Rattle.std.specs.Prelude.{◌≡◌, ◌+◌, ◌++◌, IfOk, OnOk, length, map, slice_get};
ghost use Rattle.rx_report.specs.AddsUp.{AreLinesOf};
ghost use Rattle.std.specs.Option.{option_and_then};
ghost use Rattle.rx_report.specs.Lines.{answer_lines, answer_of, dispensed_in, lines_of, member_in, product_in, record_lines, request_at};
ghost use Rattle.rx_settle.specs.Answers.{answers_of};

use crate::line::{Dispensed, Line};
use rx_d0_values::{Answer, Body, Outcome, Refused, Reply, Transaction, Transmission};
use rx_fields::{Id, Memory, Person, Product};
use std::alloc::Global;

/// The lines of a batch whose records are answered so, in file order.
#[tactic(auto, using(crate::proofs::Counted::counted, crate::proofs::Counted::paired))]
pub fn report_lines(
    alloc: Global,
    transmissions: &[Transmission],
    replies: &[Reply],
) -> Result<Vec<Line>, Memory>
    requires { length transmissions.now ≡ length replies.now }
    ensures lines { IfOk result (λ lines. lines.items ≡ lines_of transmissions.now replies.now) }
    // The answers of the lines are those that the settlement counts.
    ensures answers { IfOk result (λ lines. map answer_of lines.items ≡ answers_of replies.now) }
    // Each stands under the provider of its reply; so accounts of them add up.
    ensures providers { IfOk result (λ lines. AreLinesOf lines.items replies.now) }
{
    let lines = all_lines(alloc, transmissions, replies)?;
    Ok(lines)
}

fn all_lines(
    alloc: Global,
    transmissions: &[Transmission],
    replies: &[Reply],
) -> Result<Vec<Line>, Memory>
    requires { length transmissions.now ≡ length replies.now }
    ensures { IfOk result (λ lines. lines.items ≡ lines_of transmissions.now replies.now) }
{
    let mut lines = Vec::with_capacity(alloc, replies.len())?;
    for at in 0..transmissions.len() {
        put_record(&mut lines, at as u64 + 1, &transmissions[at], &replies[at])?;
    }
    Ok(lines)
}

// The lines of the record at a place.
fn put_record(
    lines: &mut Vec<Line>,
    place: u64,
    asked: &Transmission,
    reply: &Reply,
) -> Result<(), Memory>
    ensures { OnOk result (lines.new.items ≡ lines.old.items ++ record_lines place asked.now reply.now) }
{
    match &reply.outcome {
        Outcome::Heard(answers) => put_answers(lines, place, asked, reply, answers.as_slice()),
        Outcome::Rejected(rejected) => {
            let answer = Answer::Refused(Refused {
                codes: rejected.codes,
                reference: None,
            });
            let groups = rejected.groups.get() as usize;
            put_answers(lines, place, asked, reply, &[answer; 4][..groups])
        }
    }
}

fn put_answers(
    lines: &mut Vec<Line>,
    place: u64,
    asked: &Transmission,
    reply: &Reply,
    answers: &[Answer],
) -> Result<(), Memory>
    ensures { OnOk result (lines.new.items ≡ lines.old.items ++ answer_lines place asked.now reply.now 0 answers.now) }
{
    let echo = reply.echo.parts();
    for (before, answer) in answers.iter().enumerate() {
        let request = request_at(&asked.body, before);
        lines.push(Line {
            place,
            nth: before as u64 + 1,
            provider: echo.provider,
            date: echo.date,
            member: member_in(&request),
            product: product_in(&request),
            dispensed: dispensed_in(&request),
            answer: *answer,
        })?;
    }
    Ok(())
}

// The transaction after this many.
fn request_at(body: &Body, before: usize) -> Option<Transaction>
    ensures { result ≡ request_at body.now before }
{
    match body {
        Body::Rejected(_) => None,
        Body::Heard(heard) => nth_of(heard.list.as_slice(), before),
    }
}

#[tactic(auto, using(std::proofs::lemmas::Option::gets))]
fn nth_of(list: &[Transaction], before: usize) -> Option<Transaction>
    ensures { result ≡ slice_get list.now before }
{
    if before < list.len() {
        Some(list[before])
    } else {
        None
    }
}

// The family and the person that a billing names.
fn member_in(request: &Option<Transaction>) -> Option<(Id, Person)>
    ensures { result ≡ option_and_then member_in request.now }
{
    match request {
        Some(Transaction::Bill(bill)) => {
            let parts = bill.parts();
            Some((parts.family, parts.person))
        }
        Some(Transaction::Reverse(_) | Transaction::Faulty(_)) | None => None,
    }
}

// The product that a billing or a reversal names.
fn product_in(request: &Option<Transaction>) -> Option<Product>
    ensures { result ≡ option_and_then product_in request.now }
{
    match request {
        Some(Transaction::Bill(bill)) => Some(bill.parts().product),
        Some(Transaction::Reverse(reversal)) => Some(reversal.product),
        Some(Transaction::Faulty(_)) | None => None,
    }
}

// How much a billing is of.
fn dispensed_in(request: &Option<Transaction>) -> Option<Dispensed>
    ensures { result ≡ option_and_then dispensed_in request.now }
{
    match request {
        Some(Transaction::Bill(bill)) => {
            let parts = bill.parts();
            Some(Dispensed {
                quantity: parts.quantity,
                days: parts.days,
            })
        }
        Some(Transaction::Reverse(_) | Transaction::Faulty(_)) | None => None,
    }
}
