ghost use Rattle.std.specs.Prelude.{◌≡◌, ◌≤◌, ℕ, List, ◌++◌, ◌∷◌, IfOk, OnOk, length, map};
ghost use Rattle.std.specs.List.{All};
ghost use Rattle.rx_commands.specs.Courses.{IsCourse};
ghost use Rattle.rx_commands.specs.Places.{places_ahead};
ghost use Rattle.rx_commands.specs.Records.{AreDecided};
ghost use Rattle.rx_fields.specs.declared.limits.TheConstants.{MOST_DETAILS};
ghost use Rattle.rx_ledger.specs.Fold.{fold_replies};

use crate::replay::batch::Batch;
use crate::replay::course::{Course, begun, go_to};
use crate::replay::record::explain_record;
use rx_d0_values::Reply;
use rx_explain::Facts;
use rx_fields::Memory;
use std::alloc::Global;

/// A batch adjudicated, and some of its records explained on the way.
#[derive(Drop)]
pub struct Replayed {
    /// The replies to all records.
    pub replies: Vec<Reply>,
    /// The records that were explained.
    pub explained: Vec<Explained>,
}

/// A record explained where it was met.
#[derive(Drop)]
pub struct Explained {
    /// The record's place in the batch, from 1.
    pub place: u64,
    /// What decided its transactions, in order.
    pub facts: Vec<Facts>,
}

/// The replies to the records of a batch, one after another, and explanations of the records at these places, which
/// ascend; a place that doesn't, or that the batch hasn't, is skipped.
pub fn replay(alloc: Global, batch: &Batch<'_>, places: &[u64]) -> Result<Replayed, Memory>
    requires { length batch.now.asked.now ≤ MOST_DETAILS }
    ensures replies { IfOk result (λ r.
        r.replies.items ≡ fold_replies batch.now.lot batch.now.sheet.now 1 batch.now.asked.now batch.now.opening.now.ledger) }
    ensures explained { IfOk result (λ r. All (λ k. AreDecided batch.now k.place k.facts.items) r.explained.items) }
    ensures places { IfOk result (λ r.
        map (λ k. k.place) r.explained.items ≡ places_ahead 0 (length batch.now.asked.now) places.now) }
{
    let mut course = begun(alloc, batch)?;
    let explained = explain_ahead(alloc, batch, &mut course, places);
    let replies = course.into_replies();
    Ok(Replayed {
        replies,
        explained: explained?,
    })
}

// The records at the places that are ahead, explained on the way to the batch's end.
fn explain_ahead(
    alloc: Global,
    batch: &Batch<'_>,
    course: &mut Course,
    places: &[u64],
) -> Result<Vec<Explained>, Memory>
    requires begun { course.old.done ≡ 0 }
    requires course { IsCourse batch.now course.old }
    ensures course { OnOk result (IsCourse batch.now course.new) }
    ensures done { OnOk result (course.new.done ≡ length batch.now.asked.now) }
    ensures explained { IfOk result (λ ks. All (λ k. AreDecided batch.now k.place k.facts.items) ks.items) }
    ensures places { IfOk result (λ ks.
        map (λ k. k.place) ks.items ≡ places_ahead 0 (length batch.now.asked.now) places.now) }
{
    let mut explained = Vec::new(alloc);
    for place in places {
        explain_at(alloc, batch, course, &mut explained, *place)?;
    }
    go_to(alloc, batch, course, batch.asked.len())?;
    Ok(explained)
}

// The record at a place that is ahead, explained.
#[tactic(auto, using(crate::proofs::Places::passed_by, crate::proofs::Places::past_the_last, crate::proofs::Places::explained_too))]
fn explain_at(
    alloc: Global,
    batch: &Batch<'_>,
    course: &mut Course,
    explained: &mut Vec<Explained>,
    place: u64,
) -> Result<(), Memory>
    requires course { IsCourse batch.now course.old }
    requires explained { All (λ k. AreDecided batch.now k.place k.facts.items) explained.old.items }
    ensures course { OnOk result (IsCourse batch.now course.new) }
    ensures explained { OnOk result (All (λ k. AreDecided batch.now k.place k.facts.items) explained.new.items) }
    ensures places { (more : List ℕ) → OnOk result (
        map (λ k. k.place) explained.new.items ++ places_ahead course.new.done (length batch.now.asked.now) more
        ≡ map (λ k. k.place) explained.old.items
        ++ places_ahead course.old.done (length batch.now.asked.now) (place ∷ more)) }
{
    if place <= course.done as u64 {
        return Ok(());
    }
    if place > batch.asked.len() as u64 {
        return Ok(());
    }
    go_to(alloc, batch, course, (place - 1) as usize)?;
    let facts = explain_record(alloc, batch, course)?;
    Ok(explained.push(Explained { place, facts })?)
}
