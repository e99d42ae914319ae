//! The plans of a switch read side by side.
ghost use Rattle.std.specs.Prelude.{◌≡◌, ◌≤◌, IfOk, IfSome, map, true};
ghost use Rattle.std.specs.List.{AllZip};
ghost use Rattle.rx_switch.specs.RouteParts.{AreNumbered, opened, plan_texts};
ghost use Rattle.rx_switch.specs.Routed.{AreAccepted, PlanStandsFor, are_apart, doors_of};

use crate::open_plans::{OpenPlan, plan_with};
use crate::route_job::PlanJob;
use rayon::prelude::*;
use rx_books_store::Books;
use rx_fields::Memory;
use rx_sheet::read_sheet;
use std::alloc::Global;
use std::thread::Threads;

// A plan whose sheet or books aren't accepted, or for which memory ran out.
#[derive(Drop)]
struct Unread;

/// The sheet and the books of each plan, in their order, read by at most this many threads. None: one isn't accepted, two plans
/// have one BIN and processor control number, or threads or memory are refused.
pub(crate) fn open_beside<R: Threads + Sync>(
    rt: &R,
    alloc: Global,
    workers: usize,
    plans: &[PlanJob<'_>],
) -> Option<Vec<OpenPlan>>
    requires { 1 ≤ workers }
    ensures opened { IfSome result (λ all. AreAccepted (map plan_texts plans.now) (map opened all.items)) }
    ensures numbered { IfSome result (λ all. AreNumbered all.items) }
{
    let read = read_in_pieces(rt, alloc, plans.len() / workers, plans)?;
    let Ok(all) = numbered(alloc, read) else {
        return None;
    };
    if are_apart(&all) { Some(all) } else { None }
}

// The plans, in pieces of at least this many, in parallel. Their numbers aren't looked at.
fn read_in_pieces<R: Threads + Sync>(
    rt: &R,
    alloc: Global,
    least: usize,
    plans: &[PlanJob<'_>],
) -> Option<Vec<OpenPlan>>
    ensures { IfSome result (λ all. AllZip (λ plan next. PlanStandsFor (plan_texts plan) (opened next)) plans.now all.items) }
{
    let Ok(read) = plans
        .par_iter()
        .with_min_len(least.max(1))
        .map(
            move |plan: &PlanJob<'_>| -> Result<OpenPlan, Unread>
                ensures { IfOk result (λ next. PlanStandsFor (plan_texts plan.now) (opened next)) }
            { read_plan(rt, alloc, plan) },
        )
        .collect::<Result<Vec<OpenPlan>, Unread>>(rt, alloc)
    else {
        return None;
    };
    read.ok()
}

fn read_plan<R: Threads + Sync>(
    rt: &R,
    alloc: Global,
    plan: &PlanJob<'_>,
) -> Result<OpenPlan, Unread>
    ensures { IfOk result (λ next. PlanStandsFor (plan_texts plan.now) (opened next)) }
{
    let Ok(sheet) = read_sheet(alloc, plan.sheet) else {
        return Err(Unread);
    };
    let Ok(books) = Books::read_shared(rt, alloc, 1, plan.books) else {
        return Err(Unread);
    };
    Ok(OpenPlan {
        number: 0,
        sheet,
        books,
    })
}

// The plans with the numbers of their places.
fn numbered(alloc: Global, read: Vec<OpenPlan>) -> Result<Vec<OpenPlan>, Memory>
    ensures same { IfOk result (λ all. map opened all.items ≡ map opened read.items) }
    ensures numbered { IfOk result (λ all. AreNumbered all.items) }
{
    let mut so_far = Vec::with_capacity(alloc, read.len())?;
    for plan in read {
        let number = so_far.len();
        so_far.push(OpenPlan { number, ..plan })?;
    }
    Ok(so_far)
}

// Whether no two plans have one door.
fn are_apart(plans: &[OpenPlan]) -> bool
    ensures { result ≡ true → are_apart (doors_of (map opened plans.now)) ≡ true }
{
    let mut at = 0;
    for plan in plans {
        match plan_with(&plans[..at], plan.sheet.door()) {
            Some(_) => return false,
            None => at += 1,
        }
    }
    true
}
