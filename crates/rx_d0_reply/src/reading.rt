//! Reading replies.

ghost use Rattle.std.specs.Prelude.{◌≡◌, ◌≤◌, IfOk, IfErr, IfSome, Some, None, option_map, length};
ghost use Rattle.rx_d0_values.specs.declared.reply.Reply.{Reply};
ghost use Rattle.rx_d0_reply.specs.Fault.{IsFault, IsReadAs};
ghost use Rattle.rx_d0_reply.specs.Limits.{IsReply};
ghost use Rattle.rx_d0_reply.specs.Readers.{times};
ghost use Rattle.rx_d0_reply.specs.Reading.{group_at, refusal_at, are_copies, heard_in, rejected_in, outcome_in, reply_in};
ghost use Rattle.rx_d0_reply.specs.Text.{reply_text};

mod amounts;
mod answer;
mod fields;
mod header;

use crate::fault::ReplyFault;
use crate::shape::fault_of;
use answer::{codes_at, group_at};
use fields::{after, behind};
use header::{Status, header_at};
use rx_d0_values::{Answer, Answers, Codes, Outcome, Rejected, Reply};
use rx_fields::{Count, Memory};
use std::alloc::Global;

// That many answers, each after its GS, and what follows.
fn groups_at(
    alloc: Global,
    count: u64,
    bytes: &[u8],
) -> Result<Option<(Vec<Answer>, &[u8])>, Memory>
    ensures { IfOk result (λ found. option_map (λ x. (x.0.items, x.1.now)) found ≡ times group_at count bytes.now) }
{
    let mut answers = Vec::with_capacity(alloc, count as usize)?;
    let mut rest = bytes;
    for _ in 0..count {
        let Some((answer, more)) = group_at(rest) else {
            return Ok(None);
        };
        answers.push(answer)?;
        rest = more;
    }
    Ok(Some((answers, rest)))
}

// What is answered to a header that was accepted: the bytes are that many answers.
#[tactic(auto, unfolding(crate::specs::Reading::heard_in))]
fn heard_in(alloc: Global, count: u64, bytes: &[u8]) -> Result<Option<Outcome>, Memory>
    ensures { IfOk result (λ found. found ≡ heard_in count bytes.now) }
{
    let Some((answers, rest)) = groups_at(alloc, count, bytes)? else {
        return Ok(None);
    };
    if !rest.is_empty() {
        return Ok(None);
    }
    match Answers::new(answers) {
        Ok(answers) => Ok(Some(Outcome::Heard(answers))),
        Err(_) => Ok(None),
    }
}

// The codes of an answer to a rejected header, after its GS, and what follows.
#[tactic(auto, unfolding(crate::specs::Reading::refusal_at))]
fn refusal_at(bytes: &[u8]) -> Option<(Codes, &[u8])>
    ensures value { option_map (λ x. (x.0, x.1.now)) result ≡ refusal_at bytes.now }
    ensures within { IfSome result (λ x. length x.1.now ≤ length bytes.now) }
{
    let rest = after(b"\x1D\x1E\x1CAM21\x1CANR", bytes)?;
    codes_at(rest)
}

#[tactic(auto, unfolding(crate::specs::Reading::are_copies))]
fn are_copies(count: u64, text: &[u8], bytes: &[u8]) -> bool
    ensures { result ≡ are_copies count text.now bytes.now }
{
    match behind(count, text, bytes) {
        Some(rest) => rest.is_empty(),
        None => false,
    }
}

// What is answered to a rejected header: the bytes are that many copies of one answer.
#[tactic(auto, unfolding(crate::specs::Reading::rejected_in))]
fn rejected_in(groups: Count, bytes: &[u8]) -> Option<Outcome>
    ensures { result ≡ rejected_in groups bytes.now }
{
    let Some((codes, rest)) = refusal_at(bytes) else {
        return None;
    };
    let group = &bytes[..bytes.len() - rest.len()];
    if are_copies(groups.get() - 1, group, rest) {
        Some(Outcome::Rejected(Rejected { codes, groups }))
    } else {
        None
    }
}

fn outcome_in(
    alloc: Global,
    status: Status,
    count: Count,
    bytes: &[u8],
) -> Result<Option<Outcome>, Memory>
    ensures { IfOk result (λ found. found ≡ outcome_in status count bytes.now) }
{
    match status {
        Status::Heard => heard_in(alloc, count.get(), bytes),
        Status::Rejected => Ok(rejected_in(count, bytes)),
    }
}

// The reply that the bytes are, where they are one.
#[tactic(auto, unfolding(crate::specs::Reading::reply_in))]
fn reply_in(alloc: Global, bytes: &[u8]) -> Result<Option<Reply>, Memory>
    ensures { IfOk result (λ found. found ≡ reply_in bytes.now) }
{
    let Some((header, rest)) = header_at(bytes) else {
        return Ok(None);
    };
    let Some(outcome) = outcome_in(alloc, header.status, header.count, rest)? else {
        return Ok(None);
    };
    let reply = Reply {
        echo: header.echo,
        outcome,
    };
    Ok(Some(reply))
}

/// The reply that the bytes are the text of (docs/FORMATS.md, "Reply transmission").
pub fn decode_reply(alloc: Global, bytes: &[u8]) -> Result<Reply, ReplyFault>
    // What is read is a reply within the limits, and the bytes are its text.
    ensures reads { IfOk result (λ reply. IsReply reply × (bytes.now ≡ reply_text reply)) }
    // A reply within the limits is read back, unless memory runs out.
    ensures again { (r : Reply) → IsReply r → bytes.now ≡ reply_text r → IsReadAs result r }
    // Which fault it is.
    ensures refuses { IfErr result (IsFault bytes.now) }
{
    let found = reply_in(alloc, bytes)?;
    match found {
        Some(reply) => Ok(reply),
        None => Err(fault_of(bytes)),
    }
}
