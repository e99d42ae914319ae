ghost use Rattle.std.specs.Prelude.{◌≡◌, List, IfErr, IfNone, IfOk, IfSome, Some, false, length, map, slice_get, true};
ghost use Rattle.std.specs.List.{list_any};
ghost use Rattle.rx_d0_request.specs.Doors.{names_plan};
ghost use Rattle.rx_fields.specs.declared.door.Door.{Door as DoorValue};
ghost use Rattle.rx_switch.specs.JoinParts.{response_texts};
ghost use Rattle.rx_switch.specs.JoinRefused.{HasDoor, HaveDoors, IsNextPlan, IsNotJoined};
ghost use Rattle.rx_switch.specs.Joined.{JoinGiven};

use crate::join_fault::JoinFault;
use crate::join_job::PlanResponse;
use crate::open_plans::is_same;
use rx_fields::Door;
use rx_sheet::read_sheet;
use std::alloc::Global;

/// The doors of the plans, in their order, up to the first that is refused.
pub(crate) fn doors_of(alloc: Global, plans: &[PlanResponse<'_>]) -> Result<Vec<Door>, JoinFault>
    ensures read { IfOk result (λ doors. HaveDoors (map response_texts plans.now) doors.items) }
    ensures refused { (g : JoinGiven) → g.plans ≡ map response_texts plans.now → IfErr result (λ fault. IsNotJoined g fault) }
{
    let mut doors: Vec<Door> = Vec::with_capacity(alloc, plans.len())?;
    for plan in plans {
        let door = next_door(alloc, &doors, plan)?;
        doors.push(door)?;
    }
    Ok(doors)
}

// The door of the next plan after those that have these doors.
fn next_door(alloc: Global, doors: &[Door], plan: &PlanResponse<'_>) -> Result<Door, JoinFault>
    ensures read { IfOk result (λ door. HasDoor (response_texts plan.now) door) }
    ensures apart { IfOk result (λ door. list_any (λ other. names_plan other door) doors.now ≡ false) }
    ensures refused { (g : JoinGiven) → IsNextPlan g (length doors.now) doors.now (response_texts plan.now)
        → IfErr result (λ fault. IsNotJoined g fault) }
{
    let number = doors.len();
    let door = door_of(alloc, number, plan)?;
    match plan_with(doors, &door) {
        Some(earlier) => Err(JoinFault::SameDoor {
            plan: number,
            earlier,
        }),
        None => Ok(door),
    }
}

// The door of the plan with this number.
fn door_of(alloc: Global, number: usize, plan: &PlanResponse<'_>) -> Result<Door, JoinFault>
    ensures read { IfOk result (λ door. HasDoor (response_texts plan.now) door) }
    ensures refused { (g : JoinGiven) → (doors : List DoorValue) → IsNextPlan g number doors (response_texts plan.now)
        → IfErr result (λ fault. IsNotJoined g fault) }
{
    match read_sheet(alloc, plan.sheet) {
        Ok(sheet) => Ok(*sheet.door()),
        Err(refused) => Err(JoinFault::of_sheet(number, refused)),
    }
}

// The first plan that has this door.
fn plan_with(doors: &[Door], door: &Door) -> Option<usize>
    ensures some { IfSome result (λ number. (other : DoorValue) × (slice_get doors.now number ≡ Some other)
        × (names_plan other door.now ≡ true)) }
    ensures none { IfNone result (list_any (λ other. names_plan other door.now) doors.now ≡ false) }
{
    let mut number = 0;
    for other in doors {
        if is_same(other, door) {
            return Some(number);
        }
        number += 1;
    }
    None
}
