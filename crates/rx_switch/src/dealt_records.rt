ghost use Rattle.std.specs.Prelude.{◌≡◌, IfOk, map};
ghost use Rattle.rx_d0_request.specs.Doors.{plan_named};
ghost use Rattle.rx_switch.specs.RouteParts.{IsDealt, places_at};
ghost use Rattle.rx_switch.specs.Routed.{Switched, doors_of};

use rx_batch::{Batch, Detail};
use rx_d0_request::plan_named;
use rx_d0_values::Transmission;
use rx_fields::{Door, Lot, Memory, Stamp};
use rx_schedule::Shards;
use rx_wave::decode_for_plans;
use std::alloc::Global;
use std::thread::Threads;

/// The records of a batch, dealt out to the plans that they name.
pub(crate) struct DealtRecords {
    pub(crate) lot: Lot,
    pub(crate) stamp: Stamp,
    pub(crate) asked: Vec<Transmission>,
    /// The number of the plan that each record names; that of those that name none comes after all plans'.
    pub(crate) numbers: Vec<usize>,
    /// The places of the records of each number.
    pub(crate) places: Vec<Vec<usize>>,
}

// Written out, so that freeing one is one call wherever a function ends early, not one for each of its fields.
impl Drop for DealtRecords {
    fn drop(self) {
        let DealtRecords {
            lot: _,
            stamp: _,
            asked: _,
            numbers: _,
            places: _,
        } = self;
    }
}

impl DealtRecords {
    /// The places of the records of a number.
    pub(crate) fn places_of(&self, number: usize) -> &[usize]
        ensures { result.now ≡ places_at self.now number }
    {
        match self.places.get(number) {
            Some(places) => places.as_slice(),
            None => &[],
        }
    }
}

/// Reads the records of a batch at the doors of several plans, and deals them out.
pub(crate) fn deal_records<R: Threads + Sync>(
    rt: &R,
    alloc: Global,
    parts: usize,
    stamp: Stamp,
    doors: &[Door],
    batch: &Batch,
) -> Result<DealtRecords, Memory>
    ensures { (x : Switched) → x.stamp ≡ stamp → x.head ≡ batch.now.head → x.details ≡ batch.now.details
        → doors_of x.plans ≡ doors.now → IfOk result (IsDealt x) }
{
    let details = batch.details.as_slice();
    let numbers = numbers_of(alloc, doors, details)?;
    let shards = Shards {
        numbers,
        count: doors.len() + 1,
        largest: 0,
        transactions: 0,
    };
    let places = shards.places(alloc)?;
    let Shards { numbers, .. } = shards;
    let asked = decode_for_plans(rt, alloc, parts, doors, details)?;
    Ok(DealtRecords {
        lot: batch.head.lot(),
        stamp,
        asked,
        numbers,
        places,
    })
}

// The number of the plan that each record names, in file order.
fn numbers_of(alloc: Global, doors: &[Door], details: &[Detail]) -> Result<Vec<usize>, Memory>
    ensures { IfOk result (λ numbers. numbers.items ≡ map (λ d. plan_named doors.now d.text) details.now) }
{
    let mut numbers = Vec::with_capacity(alloc, details.len())?;
    for detail in details {
        numbers.push(plan_named(doors, detail.text.bytes()))?;
    }
    Ok(numbers)
}
