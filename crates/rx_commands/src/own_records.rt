ghost use Rattle.std.specs.Prelude.{◌≡◌, IfOk, List, Ok, Some, length, slice_get, ℕ};
ghost use Rattle.std.specs.List.{filter};
ghost use Rattle.std.specs.Option.{option_map};
ghost use Rattle.rx_commands.specs.Own.{IsOwnPart, is_own, is_own_line, own_replies};
ghost use Rattle.rx_commands.specs.Reported.{IsReported};
ghost use Rattle.rx_commands.specs.declared.batch_report.Report.{Report as ReportMade};
ghost use Rattle.rx_fields.specs.declared.stamp.Stamp.{Stamp as StampMade};
ghost use Rattle.rx_report.specs.AddsUp.{IsSettlementOf};
ghost use Rattle.rx_settle.specs.Settlement.{settlement_text};
ghost use Rattle.rx_switch.specs.Output.{stamp_for};
ghost use Rattle.rx_switch.specs.Routed.{IsRouted, PlanTexts, SwitchGiven, SwitchTexts};

use crate::batch_report::Report;
use crate::record_words::request_at;
use crate::replay::Adjudicated;
use rx_d0_request::plan_named;
use rx_d0_values::{Answers, Outcome, Reply};
use rx_fields::Memory;
use rx_report::Line;
use rx_settle::{Settled, tally_replies};
use std::alloc::Global;

/// Of the report of a plan's run on a batch of several plans, what is about the plan's own records.
pub(crate) fn own_part(alloc: Global, whole: Report) -> Result<Report, Memory>
    requires { length whole.batch.details ≡ length whole.batch.replies.items }
    ensures { IfOk result (IsOwnPart whole) }
{
    let Ok(lines) = own_lines(alloc, &whole.batch, &whole.lines) else {
        drop(whole);
        return Err(Memory);
    };
    let Ok(settled) = own_settled(alloc, &whole.batch) else {
        drop((whole, lines));
        return Err(Memory);
    };
    let Report { batch, stamp, .. } = whole;
    Ok(Report {
        batch,
        stamp,
        lines,
        settled,
    })
}

// The lines about the plan's own records.
fn own_lines(alloc: Global, batch: &Adjudicated, lines: &[Line]) -> Result<Vec<Line>, Memory>
    ensures { IfOk result (λ own. own.items ≡ filter (is_own_line batch.now) lines.now) }
{
    let mut own = Vec::new(alloc);
    for line in lines {
        if is_own(batch, line.place) {
            own.push(*line)?;
        }
    }
    Ok(own)
}

// The tallies of the replies to the plan's own records.
fn own_settled(alloc: Global, batch: &Adjudicated) -> Result<Settled, Memory>
    requires { length batch.now.details ≡ length batch.now.replies.items }
    ensures { IfOk result (λ settled. IsSettlementOf (own_replies batch.now) settled) }
{
    let replies = own_replies(alloc, batch)?;
    let settled = tally_replies(alloc, &replies)?;
    Ok(settled)
}

// The replies to the plan's own records, in file order.
fn own_replies(alloc: Global, batch: &Adjudicated) -> Result<Vec<Reply>, Memory>
    requires { length batch.now.details ≡ length batch.now.replies.items }
    ensures { IfOk result (λ own. own.items ≡ own_replies batch.now) }
{
    let mut own = Vec::new(alloc);
    for at in 0..batch.replies.len() {
        if is_own(batch, at as u64 + 1) {
            own.push(copy_of(alloc, &batch.replies[at])?)?;
        }
    }
    Ok(own)
}

// Whether the record at a place names the plan.
fn is_own(batch: &Adjudicated, place: u64) -> bool
    ensures { result ≡ is_own batch.now place }
{
    let door = *batch.sheet.door();
    plan_named(&[door], request_at(&batch.details, place)) == 0
}

// An equal reply.
fn copy_of(alloc: Global, reply: &Reply) -> Result<Reply, Memory>
    ensures { IfOk result (λ copy. copy ≡ reply.now) }
{
    let outcome = match &reply.outcome {
        Outcome::Rejected(rejected) => Outcome::Rejected(*rejected),
        Outcome::Heard(answers) => Outcome::Heard(copy_of_answers(alloc, answers)?),
    };
    Ok(Reply {
        echo: reply.echo,
        outcome,
    })
}

fn copy_of_answers(alloc: Global, answers: &Answers) -> Result<Answers, Memory>
    ensures { IfOk result (λ copy. copy ≡ answers.now) }
{
    let list = answers.as_slice();
    let mut items = Vec::with_capacity(alloc, list.len())?;
    items.extend_from_slice(list)?;
    match Answers::new(items) {
        Ok(copy) => Ok(copy),
        Err(_) => unreachable!(),
    }
}

/// What the report of a plan's own records counts is what a switch settles for the plan: of a switch on this batch, whose plan
/// at a place has these texts, the settlement of that plan is of the replies whose tallies the report has (docs/GUARANTEES.md,
/// "Several plans").
pub fn law_of_own_reports()
    ensures { (g : SwitchGiven) → (t : SwitchTexts) → (n : ℕ) → (texts : PlanTexts) → (stamp : StampMade) → (whole : ReportMade)
        → IsRouted g t → slice_get g.plans n ≡ Some texts → stamp_for g.workers g.stamp ≡ Ok stamp
        → IsReported texts.sheet texts.books g.batch whole
        → option_map (λ o. o.settlement) (slice_get t.plans n)
        ≡ Some (settlement_text whole.batch.lot stamp (own_replies whole.batch)) }
{}
