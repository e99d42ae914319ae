//! Writing replies.

ghost use Rattle.std.specs.Prelude.{◌≡◌, ◌≤◌, ◌+◌, ◌*◌, ◌++◌, ◌∷◌, [], OnErr, OnOk, IfOk, length, vec_capacity, vec_len};
ghost use Rattle.std.specs.List.{flat_map, AllByRecursion};
ghost use Rattle.rx_fields.specs.Digits.{digits_text};
ghost use Rattle.rx_d0_reply.specs.Limits.{IsHeader, IsPaid, IsAnswer, IsReply};
ghost use Rattle.rx_d0_reply.specs.Text.{paid_text, answer_text, group_text, header_text, reply_text};

mod amounts;
mod digits;
mod segments;

use crate::layout::HEADER;
use amounts::{put_amounts, put_reversed};
use rx_d0_values::{Answer, Echo, EchoParts, Outcome, Paid, Refused, Reply};
use rx_fields::{Memory, digits_write};
use rx_text::{GROUP, put};
use segments::{put_codes, put_known, put_number, put_reference};
use std::alloc::{AllocError, Global};

// The most bytes that an answer has, with its GS.
const MOST: usize = 137;

fn put_paid(out: &mut Vec<u8>, status: u8, paid: &Paid)
    requires { vec_len out.old + 136 ≤ vec_capacity out.old }
    ensures text { out.new.items ≡ out.old.items ++ paid_text (status ∷ []) paid.now }
    ensures within { IsPaid paid.now }
    ensures len { vec_len out.new ≤ vec_len out.old + 136 }
    ensures capacity { vec_capacity out.old ≤ vec_capacity out.new }
{
    put_number(out, status, paid.number);
    put_reference(out, paid.reference);
    put_amounts(out, &paid.pricing);
}

fn put_answer(out: &mut Vec<u8>, answer: &Answer)
    requires { vec_len out.old + 136 ≤ vec_capacity out.old }
    ensures text { out.new.items ≡ out.old.items ++ answer_text answer.now }
    ensures within { IsAnswer answer.now }
    ensures len { vec_len out.new ≤ vec_len out.old + 136 }
    ensures capacity { vec_capacity out.old ≤ vec_capacity out.new }
{
    match answer {
        Answer::Paid(paid) => put_paid(out, b'P', paid),
        Answer::Twice(paid) => put_paid(out, b'D', paid),
        Answer::Approved(approved) => {
            put_number(out, b'A', approved.number);
            put_reference(out, approved.reference);
            put_reversed(out, approved.total_paid);
        }
        Answer::Refused(refused) => {
            put_codes(out, &refused.codes);
            put_known(out, refused.reference);
        }
    }
}

// GS and the answer.
fn put_group(out: &mut Vec<u8>, answer: &Answer)
    requires { vec_len out.old + 137 ≤ vec_capacity out.old }
    ensures text { out.new.items ≡ out.old.items ++ group_text answer.now }
    ensures within { IsAnswer answer.now }
    ensures len { vec_len out.new ≤ vec_len out.old + 137 }
    ensures capacity { vec_capacity out.old ≤ vec_capacity out.new }
{
    put(out, &[GROUP]);
    put_answer(out, answer);
}

fn put_groups(out: &mut Vec<u8>, answers: &[Answer])
    requires { vec_len out.old + 137 * length answers.now ≤ vec_capacity out.old }
    ensures text { out.new.items ≡ out.old.items ++ flat_map group_text answers.now }
    ensures within { AllByRecursion IsAnswer answers.now }
{
    for answer in answers {
        put_group(out, answer);
    }
}

// N bytes of the header.
#[inline(always)]
fn put_field<const N: usize>(out: &mut Vec<u8>, field: &[u8; N])
    requires { vec_len out.old + N ≤ vec_capacity out.old }
    ensures text { out.new.items ≡ out.old.items ++ field.now }
    ensures within { length field.now ≡ N }
    ensures len { vec_len out.new ≡ vec_len out.old + N }
    ensures capacity { vec_capacity out.old ≤ vec_capacity out.new }
{
    put(out, field);
}

// The first six bytes of the header: version, transaction code, count and status.
#[inline(always)]
fn header_front(echo: &EchoParts, count: u64, status: u8) -> [u8; 6]
    requires { count ≤ 9 }
    ensures text { result ≡ echo.now.version ++ (echo.now.code ++ (digits_text 1 count ++ status ∷ [])) }
    ensures within { (length echo.now.version ≡ 2) × (length echo.now.code ≡ 2) }
{
    let [version, edition] = echo.version;
    let [kind, way] = echo.code;
    let [count]: [u8; 1] = digits_write(count);
    [version, edition, kind, way, count, status]
}

#[tactic(auto, using(std::proofs::Common::append_assoc))]
fn put_header(out: &mut Vec<u8>, echo: &Echo, count: u64, status: u8)
    requires count { count ≤ 9 }
    requires room { vec_len out.old + 31 ≤ vec_capacity out.old }
    ensures text { out.new.items ≡ out.old.items ++ header_text echo.now count (status ∷ []) }
    ensures within { IsHeader echo.now }
    ensures len { vec_len out.new ≡ vec_len out.old + 31 }
    ensures capacity { vec_capacity out.old ≤ vec_capacity out.new }
{
    let echo = echo.parts();
    put(out, &header_front(echo, count, status));
    put_field(out, &echo.qualifier);
    put_field(out, &echo.provider);
    put_field(out, &echo.date);
}

// Puts the text of a reply with these answers at the end of a text, which stays as it is where a growth is refused.
#[tactic(auto, using(std::proofs::Common::append_assoc))]
fn put_answers(
    out: &mut Vec<u8>,
    echo: &Echo,
    status: u8,
    answers: &[Answer],
) -> Result<(), AllocError>
    requires { length answers.now ≤ 4 }
    ensures text { OnOk result (out.new.items ≡ out.old.items ++ (header_text echo.now (length answers.now) (status ∷ [])
        ++ flat_map group_text answers.now)) }
    ensures within { OnOk result (IsHeader echo.now × AllByRecursion IsAnswer answers.now) }
    ensures err { OnErr result (out.new.items ≡ out.old.items) }
{
    out.reserve(HEADER + MOST * answers.len())?;
    put_header(out, echo, answers.len() as u64, status);
    put_groups(out, answers);
    Ok(())
}

/// Puts the one text of a reply at the end of a text (docs/FORMATS.md, "Reply transmission").
///
/// # Errors
///
/// `AllocError` where a growth was refused; the text stays as it is.
pub fn put_reply(out: &mut Vec<u8>, reply: &Reply) -> Result<(), AllocError>
    ensures text { OnOk result (out.new.items ≡ out.old.items ++ reply_text reply.now) }
    ensures within { OnOk result (IsReply reply.now) }
    ensures err { OnErr result (out.new.items ≡ out.old.items) }
{
    match &reply.outcome {
        Outcome::Rejected(rejected) => {
            let answer = Answer::Refused(Refused {
                codes: rejected.codes,
                reference: None,
            });
            let count = rejected.groups.get() as usize;
            put_answers(out, &reply.echo, b'R', &[answer; 4][..count])
        }
        Outcome::Heard(answers) => put_answers(out, &reply.echo, b'A', answers.as_slice()),
    }
}

/// The one text of a reply (docs/FORMATS.md, "Reply transmission").
pub fn encode(alloc: Global, reply: &Reply) -> Result<Vec<u8>, Memory>
    ensures text { IfOk result (λ text. text.items ≡ reply_text reply.now) }
    ensures within { IfOk result (λ text. IsReply reply.now) }
{
    let mut text = Vec::new(alloc);
    put_reply(&mut text, reply)?;
    Ok(text)
}
