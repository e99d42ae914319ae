//! A batch of one record, at its place after empty details.
ghost use Rattle.std.specs.Prelude.{◌≡◌, ◌≤◌, ◌∷◌, [], IfOk};
ghost use Rattle.rx_batch.specs.Grammar.{IsFile};
ghost use Rattle.rx_batch.specs.Writing.{IsPlain};
ghost use Rattle.rx_fields.specs.declared.limits.TheConstants.{MOST_DETAILS};
ghost use Rattle.rx_commands.specs.ExcerptParts.{empty_detail, excerpt_details};

use rx_batch::{Detail, Head, Text, write_batch};
use rx_fields::Memory;
use std::alloc::Global;

// The reference of an empty detail.
const NOBODY: [u8; 10] = *b"0000000000";

/// The batch file of this head whose detail at a place is this one, and whose details before it are empty.
pub(crate) fn batch_text(
    alloc: Global,
    head: &Head,
    place: u64,
    detail: &Detail,
) -> Result<Vec<u8>, Memory>
    requires first { 1 ≤ place }
    requires few { place ≤ MOST_DETAILS }
    requires plain { IsPlain head.now (detail.now ∷ []) }
    ensures { IfOk result (λ text. IsFile text.items head.now (excerpt_details place detail.now)) }
{
    let details = details_of(alloc, place, detail)?;
    let text = write_batch(alloc, head, &details);
    drop(details);
    text
}

fn details_of(alloc: Global, place: u64, detail: &Detail) -> Result<Vec<Detail>, Memory>
    requires first { 1 ≤ place }
    ensures { IfOk result (λ details. details.items ≡ excerpt_details place detail.now) }
{
    let mut details = Vec::new(alloc);
    let before = place - 1;
    'empty: for _ in 0..before {
        details.push(detail_of(NOBODY, Vec::new(alloc)))?;
    }
    let text = Vec::from_slice(alloc, detail.text.bytes())?;
    details.push(detail_of(detail.reference, text))?;
    Ok(details)
}

fn detail_of(reference: [u8; 10], text: Vec<u8>) -> Detail
    ensures { result ≡ record { reference = reference; text = text.items } }
{
    Detail {
        reference,
        text: Text::new(text),
    }
}
