ghost use Rattle.std.specs.Prelude.{◌↔◌, ◌≤◌, ◌+◌, IsTrue, length};
ghost use Rattle.rx_fields.specs.declared.limits.TheConstants.{MOST_AUTHORIZATION, MOST_DETAILS};
ghost use Rattle.rx_switch.specs.MayReply.{MayAnswer, MayAnswerEach, MayBeOutcome, MayReply};

use rx_d0_values::{Answer, Body, Outcome, Reply, Transaction, Transmission};
use rx_fields::{Lot, NUMBERS_OF_A_BATCH};

/// Whether the record at a place of a lot's batch may get this reply, whatever the books.
pub(crate) fn may_reply(lot: Lot, place: u64, transmission: &Transmission, reply: &Reply) -> bool
    requires { place ≤ MOST_DETAILS }
    ensures { IsTrue result ↔ MayReply lot place transmission.now reply.now }
{
    reply.echo == transmission.echo
        && may_be_outcome(lot, place, &transmission.body, &reply.outcome)
}

#[tactic(auto, using(crate::proofs::JoinDecided::same_rejected))]
fn may_be_outcome(lot: Lot, place: u64, body: &Body, outcome: &Outcome) -> bool
    requires { place ≤ MOST_DETAILS }
    ensures { IsTrue result ↔ MayBeOutcome lot place body.now outcome.now }
{
    match (body, outcome) {
        (Body::Rejected(asked), Outcome::Rejected(rejected)) => *rejected == *asked,
        (Body::Heard(heard), Outcome::Heard(answers)) => {
            let number = u64::from(lot.number()) * NUMBERS_OF_A_BATCH + place * 10 + 1;
            may_answer_each(number, heard.list.as_slice(), answers.as_slice())
        }
        _ => false,
    }
}

// The first transaction has this number.
fn may_answer_each(number: u64, asked: &[Transaction], answers: &[Answer]) -> bool
    requires { number + length asked.now ≤ MOST_AUTHORIZATION }
    ensures { IsTrue result ↔ MayAnswerEach number asked.now answers.now }
{
    match asked {
        [] => answers.is_empty(),
        [transaction, asked @ ..] => match answers {
            [] => false,
            [answer, answers @ ..] => {
                may_answer(number, transaction, answer)
                    && may_answer_each(number + 1, asked, answers)
            }
        },
    }
}

#[tactic(auto, using(crate::proofs::JoinDecided::same_codes))]
fn may_answer(number: u64, transaction: &Transaction, answer: &Answer) -> bool
    ensures { IsTrue result ↔ MayAnswer number transaction.now answer.now }
{
    match (transaction, answer) {
        (Transaction::Bill(bill), Answer::Paid(paid)) => {
            paid.number.get() == number && paid.reference == bill.parts().reference
        }
        (Transaction::Bill(bill), Answer::Twice(paid)) => paid.reference == bill.parts().reference,
        (Transaction::Bill(bill), Answer::Refused(refused)) => {
            refused.reference == Some(bill.parts().reference)
        }
        (Transaction::Reverse(reversal), Answer::Approved(approved)) => {
            approved.number.get() == number && approved.reference == reversal.reference
        }
        (Transaction::Reverse(reversal), Answer::Refused(refused)) => {
            refused.reference == Some(reversal.reference)
        }
        (Transaction::Faulty(faulty), Answer::Refused(refused)) => {
            refused.codes == faulty.codes && refused.reference == faulty.reference
        }
        _ => false,
    }
}
