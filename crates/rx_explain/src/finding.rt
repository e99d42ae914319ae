ghost use Rattle.std.specs.Prelude.{◌≡◌, ◌++◌, ◌≤◌, IfOk, OnOk, length};
ghost use Rattle.rx_fields.specs.declared.limits.TheConstants.{MOST_DETAILS};
ghost use Rattle.rx_ledger.specs.Members.{is_same};
ghost use Rattle.rx_explain.specs.Found.{found_at, found_in, has_number, has_reference, is_match};
ghost use Rattle.rx_explain.specs.Listed.{of_answers, of_record};

use crate::at::At;
use rx_d0_values::{Answer, Body, Heard, Outcome, Reply, Transmission};
use rx_fields::{Authorization, Memory, Provider, Reference};
use std::alloc::{AllocError, Global};

/// Which transactions of a batch are asked for.
#[derive(Clone, Copy)]
pub enum Query {
    /// Those of the record at a place, from 1.
    Place(u64),
    /// The one at this place.
    One(At),
    /// Those whose answer has this authorization number: of P and A their own, of D the one that it repeats.
    Number(Authorization),
    /// Those with this prescription reference number.
    Reference(Reference),
    /// Those with this prescription reference number, of one pharmacy.
    ReferenceAt(Reference, Provider),
}

/// Where the transactions stand that are asked for, in order, where these are the replies to the batch.
pub fn find(
    alloc: Global,
    query: &Query,
    transmissions: &[Transmission],
    replies: &[Reply],
) -> Result<Vec<At>, Memory>
    requires few { length transmissions.now ≤ MOST_DETAILS }
    requires each { length replies.now ≡ length transmissions.now }
    ensures { IfOk result (λ found. found.items ≡ found_in query.now 1 transmissions.now replies.now) }
{
    let mut found = Vec::new(alloc);
    for (before, transmission) in transmissions.iter().enumerate() {
        let reply = &replies[before];
        put_record(
            &mut found,
            query,
            before as u64 + 1,
            &transmission.body,
            &reply.outcome,
        )?;
    }
    Ok(found)
}

// Those of the record at a place.
fn put_record(
    found: &mut Vec<At>,
    query: &Query,
    place: u64,
    body: &Body,
    outcome: &Outcome,
) -> Result<(), AllocError>
    ensures { OnOk result (found.new.items ≡ found.old.items ++ of_record (found_at query.now) place body.now outcome.now) }
{
    match (body, outcome) {
        (Body::Heard(heard), Outcome::Heard(answers)) => {
            put_answers(found, query, place, heard, answers.as_slice())
        }
        _ => Ok(()),
    }
}

fn put_answers(
    found: &mut Vec<At>,
    query: &Query,
    place: u64,
    heard: &Heard,
    answers: &[Answer],
) -> Result<(), AllocError>
    ensures { OnOk result (found.new.items ≡ found.old.items ++ of_answers (found_at query.now) place heard.now 1 answers.now) }
{
    for (before, answer) in answers.iter().enumerate() {
        let nth = before as u64 + 1;
        put_answer(found, query, At { place, nth }, heard, answer)?;
    }
    Ok(())
}

fn put_answer(
    found: &mut Vec<At>,
    query: &Query,
    at: At,
    heard: &Heard,
    answer: &Answer,
) -> Result<(), AllocError>
    ensures { OnOk result (found.new.items ≡ found.old.items ++ found_at query.now heard.now at answer.now) }
{
    if is_match(query, at, heard, answer) {
        return Ok(found.push(at)?);
    }
    Ok(())
}

fn is_match(query: &Query, at: At, heard: &Heard, answer: &Answer) -> bool
    ensures { result ≡ is_match query.now at heard.now answer.now }
{
    match query {
        Query::Place(place) => at.place == *place,
        Query::One(one) => at.place == one.place && at.nth == one.nth,
        Query::Number(number) => has_number(*number, answer),
        Query::Reference(reference) => has_reference(*reference, answer),
        Query::ReferenceAt(reference, provider) => {
            has_reference(*reference, answer) && is_same(&heard.provider, provider)
        }
    }
}

fn has_number(number: Authorization, answer: &Answer) -> bool
    ensures { result ≡ has_number number answer.now }
{
    match answer {
        Answer::Paid(paid) | Answer::Twice(paid) => paid.number == number,
        Answer::Approved(approved) => approved.number == number,
        Answer::Refused(_) => false,
    }
}

fn has_reference(reference: Reference, answer: &Answer) -> bool
    ensures { result ≡ has_reference reference answer.now }
{
    match answer {
        Answer::Paid(paid) | Answer::Twice(paid) => paid.reference == reference,
        Answer::Approved(approved) => approved.reference == reference,
        Answer::Refused(refused) => match refused.reference {
            Some(other) => other == reference,
            None => false,
        },
    }
}

// Whether these are one pharmacy.
#[tactic(auto, using(rx_ledger::proofs::SameText::same_text))]
fn is_same(a: &Provider, b: &Provider) -> bool
    ensures { result ≡ is_same a.now b.now }
{
    a == b
}
