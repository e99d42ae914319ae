ghost use Rattle.std.specs.Prelude.{◌≡◌, ◌≤◌, ℕ, IfOk, length, map, true};
ghost use Rattle.std.specs.List.{All};
ghost use Rattle.rx_fields.specs.declared.limits.TheConstants.{MOST_DETAILS};
ghost use Rattle.rx_schedule.specs.Footprints.{record_at};
ghost use Rattle.rx_switch.specs.RouteParts.{AreFinished, AreNumbered, IsDealt, IsRejected, its_share, opened, output_texts};
ghost use Rattle.rx_switch.specs.RouteParts.{places_at, rejected_reply, share_of};
ghost use Rattle.rx_switch.specs.Routed.{Switched, are_apart, doors_of};
ghost use Rattle.rx_wave.specs.Jobs.{IsPlaceOf};

use crate::dealt_records::DealtRecords;
use crate::open_plans::OpenPlan;
use crate::route_job::PlanOutput;
use rayon::prelude::*;
use rx_d0_values::{Body, Outcome, Reply, Transmission};
use rx_fields::Memory;
use rx_serial::Finished;
use rx_settle::settle;
use rx_wave::{NoGate, run_places};
use std::alloc::Global;
use std::thread::Threads;

/// What the plans give.
#[derive(Drop)]
pub(crate) struct FinishedPlans {
    /// The replies to the records of each, and after them those to the strays.
    pub(crate) lists: Vec<Vec<Reply>>,
    pub(crate) outputs: Vec<PlanOutput>,
}

/// Adjudicates the records that are dealt out, each plan's on its own, and answers the strays. With several workers the plans
/// go side by side.
pub(crate) fn finish_plans<R: Threads + Sync>(
    rt: &R,
    alloc: Global,
    workers: usize,
    plans: &[OpenPlan],
    dealt: &DealtRecords,
) -> Result<FinishedPlans, Memory>
    requires few { length dealt.now.asked.items ≤ MOST_DETAILS }
    requires numbered { AreNumbered plans.now }
    requires dealt { (x : Switched) × (x.plans ≡ map opened plans.now) × IsDealt x dealt.now }
    ensures { (x : Switched) → x.plans ≡ map opened plans.now → are_apart (doors_of x.plans) ≡ true → IsDealt x dealt.now
        → IfOk result (AreFinished x) }
{
    let shares = finish_beside(rt, alloc, workers, plans, dealt)?;
    let apart = lists_apart(alloc, shares)?;
    let FinishedPlans { lists, outputs } = apart;
    let mut lists = lists;
    let strays = replies_to_strays(alloc, &dealt.asked, dealt.places_of(plans.len()))?;
    lists.push(strays)?;
    Ok(FinishedPlans { lists, outputs })
}

/// What a plan gives: the replies to its records, and its output.
#[derive(Drop)]
pub(crate) struct PlanShare {
    pub(crate) replies: Vec<Reply>,
    pub(crate) output: PlanOutput,
}

// What each plan gives, by at most this many threads; one after another, where threads or memory for them are refused.
fn finish_beside<R: Threads + Sync>(
    rt: &R,
    alloc: Global,
    workers: usize,
    plans: &[OpenPlan],
    dealt: &DealtRecords,
) -> Result<Vec<PlanShare>, Memory>
    requires few { length dealt.now.asked.items ≤ MOST_DETAILS }
    requires places { (k : ℕ) → All (IsPlaceOf (length dealt.now.asked.items)) (places_at dealt.now k) }
    ensures { IfOk result (λ shares. map share_of shares.items ≡ map (its_share dealt.now) plans.now) }
{
    if workers < 2 {
        return finish_each(alloc, plans, dealt);
    }
    match finish_in_pieces(rt, alloc, plans.len() / workers, plans, dealt) {
        Ok(shares) => Ok(shares),
        Err(Memory) => finish_each(alloc, plans, dealt),
    }
}

// What each plan gives, in pieces of at least this many plans, in parallel.
fn finish_in_pieces<R: Threads + Sync>(
    rt: &R,
    alloc: Global,
    least: usize,
    plans: &[OpenPlan],
    dealt: &DealtRecords,
) -> Result<Vec<PlanShare>, Memory>
    requires few { length dealt.now.asked.items ≤ MOST_DETAILS }
    requires places { (k : ℕ) → All (IsPlaceOf (length dealt.now.asked.items)) (places_at dealt.now k) }
    ensures { IfOk result (λ shares. map share_of shares.items ≡ map (its_share dealt.now) plans.now) }
{
    plans
        .par_iter()
        .with_min_len(least.max(1))
        .map(
            move |plan: &OpenPlan| -> Result<PlanShare, Memory>
                requires { (length dealt.now.asked.items ≤ MOST_DETAILS)
                    × ((k : ℕ) → All (IsPlaceOf (length dealt.now.asked.items)) (places_at dealt.now k)) }
                ensures { IfOk result (λ share. share_of share ≡ its_share dealt.entry.now plan.now) }
            { finish_plan(alloc, dealt, plan) },
        )
        .collect::<Result<Vec<PlanShare>, Memory>>(rt, alloc)?
}

// What each plan gives, one after another.
fn finish_each(
    alloc: Global,
    plans: &[OpenPlan],
    dealt: &DealtRecords,
) -> Result<Vec<PlanShare>, Memory>
    requires few { length dealt.now.asked.items ≤ MOST_DETAILS }
    requires places { (k : ℕ) → All (IsPlaceOf (length dealt.now.asked.items)) (places_at dealt.now k) }
    ensures { IfOk result (λ shares. map share_of shares.items ≡ map (its_share dealt.now) plans.now) }
{
    let mut shares = Vec::with_capacity(alloc, plans.len())?;
    for plan in plans {
        let share = finish_plan(alloc, dealt, plan)?;
        shares.push(share)?;
    }
    Ok(shares)
}

// What a plan gives.
fn finish_plan(alloc: Global, dealt: &DealtRecords, plan: &OpenPlan) -> Result<PlanShare, Memory>
    requires few { length dealt.now.asked.items ≤ MOST_DETAILS }
    requires places { All (IsPlaceOf (length dealt.now.asked.items)) (places_at dealt.now plan.now.number) }
    ensures { IfOk result (λ share. share_of share ≡ its_share dealt.now plan.now) }
{
    let places = dealt.places_of(plan.number);
    let books = plan.books.copy(alloc, plan.sheet.period())?;
    let finished = run_places(
        &NoGate,
        alloc,
        dealt.lot,
        &plan.sheet,
        &books,
        &dealt.asked,
        places,
    )?;
    drop(books);
    let Finished { books, replies } = finished;
    let text = books.write(alloc);
    drop(books);
    let books = text?;
    let settlement = settle(alloc, dealt.lot, dealt.stamp, &replies)?;
    let output = PlanOutput { books, settlement };
    Ok(PlanShare { replies, output })
}

// The lists of replies, and the outputs.
fn lists_apart(alloc: Global, shares: Vec<PlanShare>) -> Result<FinishedPlans, Memory>
    ensures lists { IfOk result (λ all. map (λ list. list.items) all.lists.items ≡ map (λ share. share.replies.items) shares.items) }
    ensures outputs { IfOk result (λ all. map output_texts all.outputs.items
        ≡ map (λ share. output_texts share.output) shares.items) }
{
    let mut lists = Vec::with_capacity(alloc, shares.len())?;
    let mut outputs = Vec::with_capacity(alloc, shares.len())?;
    for share in shares {
        let PlanShare { replies, output } = share;
        lists.push(replies)?;
        outputs.push(output)?;
    }
    Ok(FinishedPlans { lists, outputs })
}

/// The replies to the records at these places, whose headers are rejected.
pub(crate) fn replies_to_strays(
    alloc: Global,
    asked: &[Transmission],
    places: &[usize],
) -> Result<Vec<Reply>, Memory>
    requires places { All (IsPlaceOf (length asked.now)) places.now }
    requires rejected { All (λ place. IsRejected (record_at asked.now place).body) places.now }
    ensures { IfOk result (λ replies. replies.items ≡ map (λ place. rejected_reply (record_at asked.now place)) places.now) }
{
    let mut replies = Vec::with_capacity(alloc, places.len())?;
    for place in places {
        replies.push(reply_to_stray(&asked[*place - 1]))?;
    }
    Ok(replies)
}

// The reply to a request whose header is rejected.
fn reply_to_stray(transmission: &Transmission) -> Reply
    requires { IsRejected transmission.now.body }
    ensures { result ≡ rejected_reply transmission.now }
{
    match &transmission.body {
        Body::Rejected(rejected) => Reply {
            echo: transmission.echo,
            outcome: Outcome::Rejected(*rejected),
        },
        Body::Heard(_) => unreachable!(),
    }
}
