ghost use Rattle.std.specs.Prelude.{◌≡◌, List, IfErr, IfNone, IfOk, IfSome, Ok, Some, false, length, map, slice_get, true};
ghost use Rattle.std.specs.Arc.{arc_value};
ghost use Rattle.std.specs.List.{list_any};
ghost use Rattle.rx_books_store.specs.BooksFile.{IsBooksText};
ghost use Rattle.rx_d0_request.specs.Doors.{names_plan};
ghost use Rattle.rx_fields.specs.declared.stamp.Stamp.{Stamp};
ghost use Rattle.rx_ledger.specs.Plan.{Plan};
ghost use Rattle.rx_sheet.specs.SheetText.{sheet_of_text};
ghost use Rattle.rx_switch.specs.Output.{stamp_for};
ghost use Rattle.rx_switch.specs.RouteFault.{of_plan};
ghost use Rattle.rx_switch.specs.RouteParts.{AreNumbered, opened, plan_texts};
ghost use Rattle.rx_switch.specs.RouteRefused.{IsNext, IsNotRouted};
ghost use Rattle.rx_switch.specs.Routed.{AreAccepted, OnePlan, PlanStandsFor, PlanTexts, SwitchGiven, door_of, doors_of};

use crate::adjudicating::parts_of;
use crate::fault::SwitchFault;
use crate::plans_beside::open_beside;
use crate::route_fault::RouteFault;
use crate::route_job::PlanJob;
use rx_books_store::Books;
use rx_fields::{Door, Memory};
use rx_ledger::Sheet;
use rx_sheet::read_sheet;
use std::alloc::Global;
use std::sync::Arc;
use std::thread::Threads;

/// A plan whose sheet and books are read.
#[derive(Drop)]
pub(crate) struct OpenPlan {
    /// Its number, counted from 0.
    pub(crate) number: usize,
    pub(crate) sheet: Sheet,
    pub(crate) books: Books,
}

/// The sheet and the books of each plan, in their order, up to the first that is refused. Where there are several workers, and as
/// many plans, they are read side by side; where that gives nothing, one after another.
pub(crate) fn open_plans<R: Threads + Sync>(
    rt: &R,
    alloc: Global,
    workers: u16,
    plans: &[PlanJob<'_>],
) -> Result<Vec<OpenPlan>, RouteFault>
    ensures opened { IfOk result (λ all. AreAccepted (map plan_texts plans.now) (map opened all.items)) }
    ensures numbered { IfOk result (λ all. AreNumbered all.items) }
    ensures refused { (g : SwitchGiven) → (s : Stamp) → stamp_for g.workers g.stamp ≡ Ok s → g.plans ≡ map plan_texts plans.now
        → IfErr result (λ fault. IsNotRouted g fault) }
{
    let threads = usize::from(workers);
    if threads > 1 && plans.len() >= threads {
        if let Some(all) = open_beside(rt, alloc, threads, plans) {
            return Ok(all);
        }
    }
    let mut so_far: Vec<OpenPlan> = Vec::new(alloc);
    for plan in plans {
        let next = open_plan(rt, alloc, workers, &so_far, plan)?;
        so_far.push(next)?;
    }
    Ok(so_far)
}

// The next plan after those that are opened so far.
fn open_plan<R: Threads + Sync>(
    rt: &R,
    alloc: Global,
    workers: u16,
    so_far: &[OpenPlan],
    plan: &PlanJob<'_>,
) -> Result<OpenPlan, RouteFault>
    ensures opened { IfOk result (λ next. PlanStandsFor (plan_texts plan.now) (opened next)) }
    ensures apart { IfOk result (λ next.
        list_any (λ door. names_plan door (door_of (opened next))) (doors_of (map opened so_far.now)) ≡ false) }
    ensures number { IfOk result (λ next. next.number ≡ length so_far.now) }
    ensures refused { (g : SwitchGiven) → IsNext g (length so_far.now) (map opened so_far.now) (plan_texts plan.now)
        → IfErr result (λ fault. IsNotRouted g fault) }
{
    let number = so_far.len();
    let sheet = sheet_of(alloc, number, plan.sheet)?;
    match plan_with(so_far, sheet.door()) {
        Some(earlier) => Err(RouteFault::SameDoor {
            plan: number,
            earlier,
        }),
        None => {
            let parts = parts_of(workers, plan.books.len());
            let books = books_of(rt, alloc, parts, number, plan.books)?;
            Ok(OpenPlan {
                number,
                sheet,
                books,
            })
        }
    }
}

// The sheet of the plan with this number.
fn sheet_of(alloc: Global, number: usize, text: &[u8]) -> Result<Sheet, RouteFault>
    ensures read { IfOk result (λ sheet. sheet_of_text text.now ≡ Ok sheet) }
    ensures refused { (g : SwitchGiven) → (plans : List OnePlan) → (texts : PlanTexts) → IsNext g number plans texts
        → texts.sheet ≡ text.now → IfErr result (λ fault. IsNotRouted g fault) }
{
    match read_sheet(alloc, text) {
        Ok(sheet) => Ok(sheet),
        Err(fault) => Err(of_plan(number, SwitchFault::from(fault))),
    }
}

// The opening books of the plan with this number, whose sheet is accepted, and whose door no earlier plan has.
fn books_of<R: Threads + Sync>(
    rt: &R,
    alloc: Global,
    parts: usize,
    number: usize,
    text: &Arc<Vec<u8>, Global>,
) -> Result<Books, RouteFault>
    ensures read { IfOk result (λ books. IsBooksText (arc_value text.now).items books.period books.ledger) }
    ensures refused { (g : SwitchGiven) → (plans : List OnePlan) → (texts : PlanTexts) → (plan : Plan)
        → IsNext g number plans texts → texts.books ≡ (arc_value text.now).items → sheet_of_text texts.sheet ≡ Ok plan
        → list_any (λ door. names_plan door plan.figures.door) (doors_of plans) ≡ false
        → IfErr result (λ fault. IsNotRouted g fault) }
{
    match Books::read_shared(rt, alloc, parts, text) {
        Ok(books) => Ok(books),
        Err(fault) => Err(of_plan(number, SwitchFault::from(fault))),
    }
}

// A fault of a plan's texts; out of memory is no plan's.
fn of_plan(plan: usize, fault: SwitchFault) -> RouteFault
    ensures { result ≡ of_plan plan fault }
{
    match fault {
        SwitchFault::Memory => RouteFault::Switch(SwitchFault::Memory),
        other => RouteFault::Plan(plan, other),
    }
}

/// The doors of the plans.
pub(crate) fn doors_of(alloc: Global, plans: &[OpenPlan]) -> Result<Vec<Door>, Memory>
    ensures { IfOk result (λ doors. doors.items ≡ doors_of (map opened plans.now)) }
{
    let mut doors = Vec::with_capacity(alloc, plans.len())?;
    for plan in plans {
        doors.push(*plan.sheet.door())?;
    }
    Ok(doors)
}

/// The first plan that has this door.
pub(crate) fn plan_with(so_far: &[OpenPlan], door: &Door) -> Option<usize>
    ensures some { IfSome result (λ number. (plan : OnePlan) × (slice_get (map opened so_far.now) number ≡ Some plan)
        × (names_plan (door_of plan) door.now ≡ true)) }
    ensures none { IfNone result (list_any (λ other. names_plan other door.now) (doors_of (map opened so_far.now)) ≡ false) }
{
    let mut number = 0;
    for plan in so_far {
        if is_same(plan.sheet.door(), door) {
            return Some(number);
        }
        number += 1;
    }
    None
}

/// Whether two doors are one.
pub(crate) fn is_same(door: &Door, other: &Door) -> bool
    ensures { result ≡ names_plan door.now other.now }
{
    door.bin == other.bin && door.pcn == other.pcn
}
