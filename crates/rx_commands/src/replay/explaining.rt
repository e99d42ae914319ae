ghost use Rattle.std.specs.Prelude.{◌≡◌, ◌≤◌, IfOk, OnOk, Option, length};
ghost use Rattle.std.specs.List.{AllZip};
ghost use Rattle.std.specs.Option.{option_copied};
ghost use Rattle.rx_commands.specs.Adjudicated.{AreExplained, IsAdjudicated};
ghost use Rattle.rx_commands.specs.Courses.{IsCourse};
ghost use Rattle.rx_commands.specs.Records.{AreDecided, IsAt, IsDecided, IsPass};
ghost use Rattle.rx_commands.specs.declared.replay.batch.Batch.{Batch as BatchRecord};
ghost use Rattle.rx_fields.specs.declared.limits.TheConstants.{MOST_DETAILS};

use crate::replay::batch::{Adjudicated, Batch};
use crate::replay::course::{Course, begun, go_to};
use crate::replay::record::explain_record;
use rx_explain::{At, Events, Explanation, Facts, item, place_at};
use rx_fields::Memory;
use std::alloc::Global;

/// An explanation of the transaction at each of these places of a batch, None if there is none. Places in the order of
/// the batch take one more pass over it.
#[tactic(auto, using(crate::proofs::Replied::one_each))]
pub fn explanations(
    alloc: Global,
    batch: &Adjudicated,
    places: &[At],
) -> Result<Vec<Option<Explanation>>, Memory>
    requires { IsAdjudicated batch.now }
    ensures { IfOk result (λ all. AreExplained batch.now places.now all.items) }
{
    let events = Events::of(alloc, &batch.asked, &batch.replies)?;
    let batch = Batch {
        lot: batch.lot,
        sheet: &batch.sheet,
        opening: &batch.opening,
        asked: &batch.asked,
    };
    explain_each(alloc, &batch, &events, places)
}

/// The same among these events.
pub fn explain_each(
    alloc: Global,
    batch: &Batch<'_>,
    events: &Events,
    places: &[At],
) -> Result<Vec<Option<Explanation>>, Memory>
    requires { length batch.now.asked.now ≤ MOST_DETAILS }
    ensures { IfOk result (λ all. AllZip (IsAt batch.now events.now) places.now all.items) }
{
    let mut pass = Pass::begun(alloc, batch)?;
    let explanations = explain_on(alloc, batch, events, &mut pass, places);
    drop(pass);
    explanations
}

// The transactions at these places, explained as the pass comes to them.
fn explain_on(
    alloc: Global,
    batch: &Batch<'_>,
    events: &Events,
    pass: &mut Pass,
    places: &[At],
) -> Result<Vec<Option<Explanation>>, Memory>
    requires { IsPass batch.now pass.old }
    ensures { IfOk result (λ all. AllZip (IsAt batch.now events.now) places.now all.items) }
{
    let mut explanations = Vec::with_capacity(alloc, places.len())?;
    for nth in 0..places.len() {
        let at = place_at(places, nth);
        let explanation = pass.explain(alloc, batch, events, at)?;
        explanations.push(explanation)?;
    }
    Ok(explanations)
}

/// The explanation among these events, where there are facts of a transaction.
pub fn traced(
    alloc: Global,
    events: &Events,
    facts: Option<&Facts>,
) -> Result<Option<Explanation>, Memory>
    ensures { (b : BatchRecord) → (at : At)
        → IsDecided b at (option_copied facts.entry) → IfOk result (IsAt b events.now at) }
{
    match facts {
        Some(facts) => Ok(Some(facts.traced(alloc, events)?)),
        None => Ok(None),
    }
}

/// A pass over a batch, which explains transactions as it comes to their records.
#[derive(Drop)]
pub struct Pass {
    course: Course,
    // The place of the record that was explained last, and what decided its transactions.
    place: u64,
    latest: Vec<Facts>,
}

impl Pass {
    /// A pass that has come to no record yet.
    pub fn begun(alloc: Global, batch: &Batch<'_>) -> Result<Pass, Memory>
        requires { length batch.now.asked.now ≤ MOST_DETAILS }
        ensures { IfOk result (IsPass batch.now) }
    {
        Ok(Pass {
            course: begun(alloc, batch)?,
            place: 0,
            latest: Vec::new(alloc),
        })
    }

    /// An explanation of the transaction at a place of the batch among these events, None if there is none. Where the pass
    /// is past the place, it begins again.
    pub fn explain(
        &mut self,
        alloc: Global,
        batch: &Batch<'_>,
        events: &Events,
        at: At,
    ) -> Result<Option<Explanation>, Memory>
        requires { IsPass batch.now self.old }
        ensures pass { OnOk result (IsPass batch.now self.new) }
        ensures explained { IfOk result (IsAt batch.now events.now at) }
    {
        pass_to(alloc, batch, self, at.place)?;
        traced(alloc, events, item(&self.latest, at.nth))
    }
}

// The pass goes on to the record at a place, and explains it; where it is past it, it begins again.
fn pass_to(alloc: Global, batch: &Batch<'_>, pass: &mut Pass, place: u64) -> Result<(), Memory>
    requires course { IsCourse batch.now pass.old.course }
    requires latest { AreDecided batch.now pass.old.place pass.old.latest.items }
    ensures course { OnOk result (IsCourse batch.now pass.new.course) }
    ensures latest { OnOk result (AreDecided batch.now pass.new.place pass.new.latest.items) }
    ensures place { OnOk result (pass.new.place ≡ place) }
{
    if place == pass.place {
        return Ok(());
    }
    pass.latest.clear();
    pass.place = place;
    if place == 0 || place > batch.asked.len() as u64 {
        return Ok(());
    }
    let before = (place - 1) as usize;
    go_back(alloc, batch, &mut pass.course, before)?;
    go_to(alloc, batch, &mut pass.course, before)?;
    pass.latest = explain_record(alloc, batch, &mut pass.course)?;
    Ok(())
}

// The batch begun again, where more of its records are done than these.
fn go_back(
    alloc: Global,
    batch: &Batch<'_>,
    course: &mut Course,
    before: usize,
) -> Result<(), Memory>
    requires { IsCourse batch.now course.old }
    ensures course { OnOk result (IsCourse batch.now course.new) }
    ensures done { OnOk result (course.new.done ≤ before) }
{
    if course.done > before {
        *course = begun(alloc, batch)?;
    }
    Ok(())
}
