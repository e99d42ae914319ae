ghost use Rattle.std.specs.Prelude.{◌≡◌, ◌≤◌, List, IfErr, IfOk, length, map};
ghost use Rattle.rx_batch.specs.Grammar.{IsFile};
ghost use Rattle.rx_fields.specs.declared.door.Door.{Door as DoorValue};
ghost use Rattle.rx_fields.specs.declared.limits.TheConstants.{MOST_DETAILS};
ghost use Rattle.rx_settle.specs.Settlement.{settlement_text};
ghost use Rattle.rx_switch.specs.JoinParts.{ArePicked, IsJoinOf, JoinedReplies, given_join, join_inputs, response_texts, texts_joined};
ghost use Rattle.rx_switch.specs.JoinRefused.{HaveDoors, IsNotJoined};
ghost use Rattle.rx_switch.specs.Joined.{IsJoined, JoinGiven};
ghost use Rattle.rx_switch.specs.RouteParts.{IsDealt};
ghost use Rattle.rx_switch.specs.Routed.{OnePlan, Switched, doors_of};

use crate::adjudicating::{Replied, render_replies};
use crate::dealt_records::{DealtRecords, deal_records};
use crate::finished_plans::replies_to_strays;
use crate::join_doors::doors_of;
use crate::join_fault::JoinFault;
use crate::join_job::{JoinJob, JoinOutput, PlanResponse};
use crate::joined_files::{replies_in, stamp_of};
use rx_batch::{Batch, read_batch};
use rx_d0_values::Reply;
use rx_fields::{Door, Stamp};
use rx_io::one_text;
use rx_settle::settle;
use rx_wave::replies_in_order;
use std::alloc::Global;
use std::thread::Threads;

/// Puts the response of a switch together: of each record the reply that the response file of the plan it names holds at its
/// place; of one that names none the rejection of a stray (docs/FORMATS.md, "Several plans"). Nothing is adjudicated, and no
/// books are read.
///
/// # Errors
///
/// The first fault, in this order: NoPlan; plan by plan, in their order, its Sheet, and SameDoor where an earlier plan has its BIN and
/// processor control number; Batch; then plan by plan Response, OtherBatch, OtherStamp, OtherDetail at the first such place, and
/// OtherReply at the first such place. Memory may stand in the place of any answer.
pub fn join<R: Threads + Sync>(
    rt: &R,
    alloc: Global,
    job: &JoinJob<'_>,
) -> Result<JoinOutput, JoinFault>
    ensures joined { IfOk result (λ output. IsJoined (given_join job.now) (texts_joined output)) }
    ensures refused { IfErr result (λ fault. IsNotJoined (given_join job.now) fault) }
{
    if job.plans.is_empty() {
        return Err(JoinFault::NoPlan);
    }
    let doors = doors_of(alloc, job.plans)?;
    let batch = batch_of(alloc, job.batch)?;
    let stamp = stamp_of(alloc, job.plans[0].response, &batch)?;
    join_texts(rt, alloc, job.plans, &doors, stamp, &batch)
}

// The batch.
fn batch_of(alloc: Global, bytes: &[u8]) -> Result<Batch, JoinFault>
    ensures read { IfOk result (λ batch. IsFile bytes.now batch.head batch.details) }
    ensures refused { (g : JoinGiven) → (doors : List DoorValue) → 1 ≤ length g.plans → HaveDoors g.plans doors
        → g.batch ≡ bytes.now → IfErr result (λ fault. IsNotJoined g fault) }
{
    match read_batch(alloc, bytes) {
        Ok(batch) => Ok(batch),
        Err(refused) => Err(JoinFault::of_batch(refused)),
    }
}

// The texts of the replies that are joined.
fn join_texts<R: Threads + Sync>(
    rt: &R,
    alloc: Global,
    texts: &[PlanResponse<'_>],
    doors: &[Door],
    stamp: Stamp,
    batch: &Batch,
) -> Result<JoinOutput, JoinFault>
    requires few { length batch.now.details ≤ MOST_DETAILS }
    requires given { (g : JoinGiven) × (plans : List OnePlan) × IsJoinOf g plans texts.now doors.now stamp batch.now }
    ensures joined { (g : JoinGiven) → (plans : List OnePlan) → IsJoinOf g plans texts.now doors.now stamp batch.now
        → IfOk result (λ output. IsJoined g (texts_joined output)) }
    ensures refused { (g : JoinGiven) → (plans : List OnePlan) → IsJoinOf g plans texts.now doors.now stamp batch.now
        → IfErr result (λ fault. IsNotJoined g fault) }
{
    let picked = pick_replies(rt, alloc, stamp, batch, doors, texts)?;
    let Picked {
        replies,
        settlements,
    } = picked;
    let replied = render_replies(rt, alloc, batch, &stamp, &replies, 1)?;
    let Replied {
        response,
        settlement,
    } = replied;
    let response = one_text(alloc, response)?;
    Ok(JoinOutput {
        response,
        settlement,
        settlements,
    })
}

// The replies to all records in file order, and the settlement of each plan.
#[derive(Drop)]
pub(crate) struct Picked {
    pub(crate) replies: Vec<Reply>,
    pub(crate) settlements: Vec<Vec<u8>>,
}

// What is picked from the response files.
fn pick_replies<R: Threads + Sync>(
    rt: &R,
    alloc: Global,
    stamp: Stamp,
    batch: &Batch,
    doors: &[Door],
    texts: &[PlanResponse<'_>],
) -> Result<Picked, JoinFault>
    requires few { length batch.now.details ≤ MOST_DETAILS }
    requires given { (g : JoinGiven) × (plans : List OnePlan) × IsJoinOf g plans texts.now doors.now stamp batch.now }
    ensures joined { (g : JoinGiven) → (plans : List OnePlan) → IsJoinOf g plans texts.now doors.now stamp batch.now
        → IfOk result (λ picked. JoinedReplies g (join_inputs stamp plans batch.now) picked.replies.items
        (map (λ text. text.items) picked.settlements.items)) }
    ensures refused { (g : JoinGiven) → (plans : List OnePlan) → IsJoinOf g plans texts.now doors.now stamp batch.now
        → IfErr result (λ fault. IsNotJoined g fault) }
{
    let dealt = deal_records(rt, alloc, 1, stamp, doors, batch)?;
    let lists = lists_of_plans(alloc, texts, batch, &dealt)?;
    let settlements = settlements_of(alloc, &dealt, &lists)?;
    let mut lists = lists;
    let strays = replies_to_strays(alloc, &dealt.asked, dealt.places_of(texts.len()))?;
    lists.push(strays)?;
    let replies = replies_in_order(alloc, &dealt.numbers, lists)?;
    Ok(Picked {
        replies,
        settlements,
    })
}

// The replies to the records of each plan, from one response file after another.
fn lists_of_plans(
    alloc: Global,
    texts: &[PlanResponse<'_>],
    batch: &Batch,
    dealt: &DealtRecords,
) -> Result<Vec<Vec<Reply>>, JoinFault>
    requires dealt { (x : Switched) × (x.details ≡ batch.now.details) × IsDealt x dealt.now }
    requires few { length batch.now.details ≤ MOST_DETAILS }
    ensures picked { IfOk result (λ lists.
        ArePicked batch.now dealt.now (map response_texts texts.now) (map (λ list. list.items) lists.items)) }
    ensures refused { (g : JoinGiven) → (plans : List OnePlan) → IsJoinOf g plans texts.now (doors_of plans) dealt.now.stamp batch.now
        → IsDealt (join_inputs dealt.now.stamp plans batch.now) dealt.now → IfErr result (λ fault. IsNotJoined g fault) }
{
    let mut lists: Vec<Vec<Reply>> = Vec::with_capacity(alloc, texts.len())?;
    for text in texts {
        let picked = replies_in(alloc, lists.len(), text, batch, dealt)?;
        lists.push(picked)?;
    }
    Ok(lists)
}

// The settlement over each of these lists.
fn settlements_of(
    alloc: Global,
    dealt: &DealtRecords,
    lists: &[Vec<Reply>],
) -> Result<Vec<Vec<u8>>, JoinFault>
    ensures settled { IfOk result (λ all. map (λ text. text.items) all.items
        ≡ map (λ list. settlement_text dealt.now.lot dealt.now.stamp list.items) lists.now) }
    ensures refused { IfErr result (λ fault. fault ≡ JoinFault.Memory) }
{
    let mut settlements = Vec::with_capacity(alloc, lists.len())?;
    for list in lists {
        let text = settle(alloc, dealt.lot, dealt.stamp, list)?;
        settlements.push(text)?;
    }
    Ok(settlements)
}
