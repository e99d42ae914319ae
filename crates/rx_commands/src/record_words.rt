ghost use Rattle.std.specs.Prelude.{◌≡◌, IfOk};
ghost use Rattle.std.specs.Option.{option_copied};
ghost use Rattle.rx_commands.specs.Explaining.{rejected_at, rejected_in, request_at};
ghost use Rattle.rx_commands.specs.Tiers.{table_of};
ghost use Rattle.rx_commands.specs.Whys.{header_words, words_at};

use crate::replay::Batch;
use crate::tiers::Tiers;
use rx_batch::Details;
use rx_d0_values::{Body, Rejected, Transmission};
use rx_explain::{At, Explanation, item};
use rx_explain_text::{Cited, Listing, explanation_text, rejection_text};
use rx_fields::Memory;
use rx_ledger::Figures;
use std::alloc::Global;

/// What the words under an answer quote of the inputs: names of tiers, and the details of the batch.
#[derive(Clone, Copy)]
pub(crate) struct Quoted<'a> {
    pub(crate) tiers: &'a Tiers,
    pub(crate) details: &'a Details,
}

/// The explanation of an answer of a batch, as `explain` prints it in words where no response file is given; of an answer
/// to a record whose header is rejected, which has no explanation, that of the record.
pub(crate) fn words_of(
    alloc: Global,
    batch: &Batch<'_>,
    quoted: Quoted<'_>,
    at: At,
    explanation: Option<&Explanation>,
) -> Result<Vec<u8>, Memory>
    ensures { let b = batch.now in let q = quoted.entry in IfOk result (λ text. text.items ≡ words_at
        b.lot b.sheet.now (table_of q.tiers.now) b.asked.now q.details.now at (option_copied explanation.entry)) }
{
    let Quoted { tiers, details } = quoted;
    let figures = batch.sheet.figures();
    match explanation {
        Some(explanation) => {
            let cited = Cited {
                request: request_at(details, at.place),
                tier: tiers.of(&explanation.transaction),
            };
            let listing = Listing::Largest;
            explanation_text(alloc, batch.lot, figures, explanation, cited, None, listing)
        }
        None => header_words(
            alloc,
            figures,
            details,
            at.place,
            rejected_at(batch.asked, at),
        ),
    }
}

// Of the record at a place, where its header is rejected.
fn header_words(
    alloc: Global,
    figures: &Figures,
    details: &Details,
    place: u64,
    rejected: Option<&Rejected>,
) -> Result<Vec<u8>, Memory>
    ensures { IfOk result (λ text. text.items
        ≡ header_words figures.now.door details.now place (option_copied rejected.entry)) }
{
    match rejected {
        Some(rejected) => {
            let request = request_at(details, place);
            rejection_text(alloc, figures, place, rejected, request, None)
        }
        None => Ok(Vec::new(alloc)),
    }
}

/// The record at a place whose header is rejected, where it has an answer there.
pub(crate) fn rejected_at(asked: &[Transmission], at: At) -> Option<&Rejected>
    ensures { option_copied result ≡ rejected_at asked.now at }
{
    match item(asked, at.place) {
        Some(transmission) => rejected_in(&transmission.body, at.nth),
        None => None,
    }
}

// The rejected header of a record, where it has this many answers.
fn rejected_in(body: &Body, nth: u64) -> Option<&Rejected>
    ensures { option_copied result ≡ rejected_in body.now nth }
{
    match body {
        Body::Rejected(rejected) if nth >= 1 && nth <= rejected.groups.get() => Some(rejected),
        _ => None,
    }
}

/// The text of the transmission at a place.
pub(crate) fn request_at(details: &Details, place: u64) -> &[u8]
    ensures { result.now ≡ request_at details.now place }
{
    match item(details.as_slice(), place) {
        Some(detail) => detail.text.bytes(),
        None => &[],
    }
}
