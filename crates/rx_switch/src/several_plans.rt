ghost use Rattle.std.specs.Prelude.{◌≡◌, ◌≤◌, List, Err, IfErr, IfOk, Ok, length, map, true};
ghost use Rattle.rx_batch.specs.Grammar.{IsFile};
ghost use Rattle.rx_fields.specs.declared.limits.TheConstants.{MOST_DETAILS};
ghost use Rattle.rx_fields.specs.declared.stamp.Stamp.{Stamp as StampValue};
ghost use Rattle.rx_switch.specs.Output.{stamp_for};
ghost use Rattle.rx_switch.specs.RouteParts.{AreNumbered, given_route, opened, output_texts, switched_by, switched_of, texts_routed};
ghost use Rattle.rx_switch.specs.RouteRefused.{IsNotRouted};
ghost use Rattle.rx_switch.specs.Routed.{AreAccepted, IsRouted, OnePlan, SwitchGiven, SwitchStandsFor, are_apart, doors_of};
ghost use Rattle.rx_switch.specs.Routed.{plan_output, routed_replies, switch_texts};

use crate::accepting::{bytes_of, stamp_for};
use crate::adjudicating::{Replied, parts_of, render_replies};
use crate::dealt_records::deal_records;
use crate::fault::SwitchFault;
use crate::finished_plans::{FinishedPlans, finish_plans};
use crate::open_plans::{OpenPlan, doors_of, open_plans};
use crate::route_fault::RouteFault;
use crate::route_job::{PlanOutput, RouteJob, RouteOutput};
use rx_batch::{Batch, read_batch};
use rx_d0_values::Reply;
use rx_fields::{Memory, Stamp};
use rx_io::one_text;
use rx_wave::replies_in_order;
use std::alloc::Global;
use std::thread::Threads;

/// Adjudicates a batch for several plans: each record by the plan that it names (docs/FORMATS.md, "Several plans").
///
/// The reply to a record that names a plan is the one that `run` gives on the whole batch under that plan, and each plan's end
/// books are those of that run. A record that names none is rejected.
///
/// # Errors
///
/// Workers and Stamp; then plan by plan, in their order, its Sheet, SameDoor where an earlier plan has its BIN and processor
/// control number, and its Books; then Batch. Memory may stand in the place of any answer but Workers and Stamp.
pub fn route<R: Threads + Sync>(
    rt: &R,
    alloc: Global,
    job: &RouteJob<'_>,
) -> Result<RouteOutput, RouteFault>
    ensures output { IfOk result (λ output. IsRouted (given_route job.now) (texts_routed output)) }
    ensures refused { IfErr result (λ fault. IsNotRouted (given_route job.now) fault) }
    // Workers and Stamp are answered before anything is allocated.
    ensures words { (fault : SwitchFault) → stamp_for job.now.workers job.now.stamp.now ≡ Err fault
        → result ≡ Err (RouteFault.Switch fault) }
{
    let accepted = accept_plans(rt, alloc, job)?;
    Ok(route_accepted(rt, alloc, job.workers, accepted)?)
}

/// What a switch is given, once it is accepted.
#[derive(Drop)]
pub(crate) struct AcceptedPlans {
    pub(crate) stamp: Stamp,
    pub(crate) plans: Vec<OpenPlan>,
    pub(crate) batch: Batch,
}

// Looks at what is given in the order of the refusals, of which it answers the first.
fn accept_plans<R: Threads + Sync>(
    rt: &R,
    alloc: Global,
    job: &RouteJob<'_>,
) -> Result<AcceptedPlans, RouteFault>
    ensures accepted { IfOk result (λ accepted. SwitchStandsFor (given_route job.now) (switched_of accepted)) }
    ensures numbered { IfOk result (λ accepted. AreNumbered accepted.plans.items) }
    ensures refused { IfErr result (λ fault. IsNotRouted (given_route job.now) fault) }
    ensures words { (fault : SwitchFault) → stamp_for job.now.workers job.now.stamp.now ≡ Err fault
        → result ≡ Err (RouteFault.Switch fault) }
{
    let stamp = stamp_for(job.workers, job.stamp)?;
    let plans = open_plans(rt, alloc, job.workers, job.plans)?;
    let batch = batch_of(alloc, job.batch)?;
    Ok(AcceptedPlans {
        stamp,
        plans,
        batch,
    })
}

// The batch.
fn batch_of(alloc: Global, bytes: &[u8]) -> Result<Batch, RouteFault>
    ensures read { IfOk result (λ batch. IsFile bytes.now batch.head batch.details) }
    ensures refused { (g : SwitchGiven) → (s : StampValue) → (plans : List OnePlan) → stamp_for g.workers g.stamp ≡ Ok s
        → AreAccepted g.plans plans → g.batch ≡ bytes.now → IfErr result (λ fault. IsNotRouted g fault) }
{
    match read_batch(alloc, bytes) {
        Ok(batch) => Ok(batch),
        Err(fault) => Err(RouteFault::Switch(SwitchFault::from(fault))),
    }
}

// The texts of what is accepted.
fn route_accepted<R: Threads + Sync>(
    rt: &R,
    alloc: Global,
    workers: u16,
    accepted: AcceptedPlans,
) -> Result<RouteOutput, Memory>
    requires few { length accepted.batch.details ≤ MOST_DETAILS }
    requires apart { are_apart (doors_of (map opened accepted.plans.items)) ≡ true }
    requires numbered { AreNumbered accepted.plans.items }
    ensures { IfOk result (λ output. texts_routed output ≡ switch_texts (switched_of accepted)) }
{
    let AcceptedPlans {
        stamp,
        plans,
        batch,
    } = accepted;
    let parts = parts_of(workers, bytes_of(batch.details.as_slice()));
    let routed = route_records(rt, alloc, workers, parts, stamp, &plans, &batch);
    drop(plans);
    let RoutedRecords { replies, outputs } = routed?;
    let replied = render_replies(rt, alloc, &batch, &stamp, &replies, parts);
    drop((batch, replies));
    let Replied {
        response,
        settlement,
    } = replied?;
    let response = one_text(alloc, response)?;
    Ok(RouteOutput {
        response,
        settlement,
        plans: outputs,
    })
}

// The replies to all records in file order, and the outputs of the plans.
#[derive(Drop)]
struct RoutedRecords {
    replies: Vec<Reply>,
    outputs: Vec<PlanOutput>,
}

// Adjudicates the records of a batch for these plans.
fn route_records<R: Threads + Sync>(
    rt: &R,
    alloc: Global,
    workers: u16,
    parts: usize,
    stamp: Stamp,
    plans: &[OpenPlan],
    batch: &Batch,
) -> Result<RoutedRecords, Memory>
    requires few { length batch.now.details ≤ MOST_DETAILS }
    requires apart { are_apart (doors_of (map opened plans.now)) ≡ true }
    requires numbered { AreNumbered plans.now }
    ensures replies { IfOk result (λ routed. routed.replies.items ≡ routed_replies (switched_by stamp plans.now batch.now)) }
    ensures outputs { IfOk result (λ routed. map output_texts routed.outputs.items
        ≡ map (plan_output (switched_by stamp plans.now batch.now)) (map opened plans.now)) }
{
    let doors = doors_of(alloc, plans)?;
    let dealt = deal_records(rt, alloc, parts, stamp, &doors, batch)?;
    let finished = finish_plans(rt, alloc, usize::from(workers), plans, &dealt)?;
    let FinishedPlans { lists, outputs } = finished;
    let replies = replies_in_order(alloc, &dealt.numbers, lists)?;
    Ok(RoutedRecords { replies, outputs })
}
