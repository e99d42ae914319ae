ghost use Rattle.std.specs.Prelude.{◌≡◌, ◌++◌, IfOk, OnOk, drop, map};
ghost use Rattle.std.specs.List.{flat_map};
ghost use Rattle.rx_commands.specs.Adjudicated.{IsAdjudicated};
ghost use Rattle.rx_settle.specs.Answers.{is_approved};
ghost use Rattle.rx_commands.specs.Reversed.{first_member, member_back, place_of, lines_with_members, with_member, with_reversed};

use crate::replay::{Adjudicated, explanations};
use rx_d0_values::Answer;
use rx_explain::{At, Explanation};
use rx_fields::{Id, Memory, Person};
use rx_ledger::Decision;
use rx_report::Line;
use std::alloc::{AllocError, Global};

/// The lines of a batch's answers, where each approved reversal has the member of the claim that it takes back. Its request
/// names none; so the decision on it says it, on the ledger before it.
#[tactic(auto, using(crate::proofs::MembersBack::with_members_is))]
pub(crate) fn with_reversed(
    alloc: Global,
    batch: &Adjudicated,
    lines: &[Line],
) -> Result<Vec<Line>, Memory>
    requires { IsAdjudicated batch.now }
    ensures { IfOk result (λ whole. whole.items ≡ map (with_reversed batch.now) lines.now) }
{
    let places = reversals(alloc, lines)?;
    let explanations = explanations(alloc, batch, &places)?;
    lines_with_members(alloc, lines, &explanations)
}

// Where the approved reversals stand.
fn reversals(alloc: Global, lines: &[Line]) -> Result<Vec<At>, Memory>
    ensures { IfOk result (λ places. places.items ≡ flat_map place_of lines.now) }
{
    let mut places = Vec::new(alloc);
    for line in lines {
        put_place(&mut places, line)?;
    }
    Ok(places)
}

fn put_place(places: &mut Vec<At>, line: &Line) -> Result<(), AllocError>
    ensures { OnOk result (places.new.items ≡ places.old.items ++ place_of line.now) }
{
    if is_approved(&line.answer) {
        let (place, nth) = (line.place, line.nth);
        places.push(At { place, nth })?;
    }
    Ok(())
}

fn is_approved(answer: &Answer) -> bool
    ensures { result ≡ is_approved answer.now }
{
    match answer {
        Answer::Approved(_) => true,
        Answer::Paid(_) | Answer::Twice(_) | Answer::Refused(_) => false,
    }
}

// The lines, of which the approved reversals have these explanations, in order.
fn lines_with_members(
    alloc: Global,
    lines: &[Line],
    explanations: &[Option<Explanation>],
) -> Result<Vec<Line>, Memory>
    ensures { IfOk result (λ whole. whole.items ≡ lines_with_members lines.now explanations.now) }
{
    let mut whole = Vec::with_capacity(alloc, lines.len())?;
    let mut left = explanations;
    for line in lines {
        if is_approved(&line.answer) {
            whole.push(with_member(line, first_member(left)))?;
            left = after_first(left);
        } else {
            whole.push(*line)?;
        }
    }
    Ok(whole)
}

fn with_member(line: &Line, member: Option<(Id, Person)>) -> Line
    ensures { result ≡ with_member line.now member }
{
    let mut line = *line;
    line.member = member;
    line
}

// The member of the claim that the first of these explanations takes back.
fn first_member(explanations: &[Option<Explanation>]) -> Option<(Id, Person)>
    ensures { result ≡ first_member explanations.now }
{
    match explanations {
        [Some(explanation), ..] => member_back(&explanation.decision),
        _ => None,
    }
}

fn after_first(explanations: &[Option<Explanation>]) -> &[Option<Explanation>]
    ensures { result.now ≡ drop 1 explanations.now }
{
    &explanations[explanations.len().min(1)..]
}

// The member of the claim that a decision takes back.
fn member_back(decision: &Decision) -> Option<(Id, Person)>
    ensures { result ≡ member_back decision.now }
{
    match decision {
        Decision::TakenBack(row) => Some((row.family, row.person)),
        _ => None,
    }
}
