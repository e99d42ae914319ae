ghost use Rattle.std.specs.Prelude.{◌≡◌, ◌++◌, codes};
ghost use Rattle.std.specs.Result.{IfOk, OnOk};
ghost use Rattle.std.specs.String.{string_bytes};
ghost use Rattle.rx_settle.specs.Providers.{named};
ghost use Rattle.rx_settle.specs.Settlement.{counts_text, head_line};
ghost use Rattle.rx_settle.specs.Together.{head_lines};

use crate::batch_run::BatchRun;
use crate::provider::{Field, put_provider};
use crate::tally::Tally;
use rx_fields::{Lot, Stamp, digits_write};
use std::alloc::{AllocError, Global};

/// The head line of each batch.
pub(crate) fn put_heads(text: &mut Vec<u8>, runs: &[BatchRun]) -> Result<(), AllocError>
    ensures { OnOk result (text.new.items ≡ text.old.items ++ head_lines runs.now) }
{
    for run in runs {
        put_head(text, run.lot, run.stamp)?;
    }
    Ok(())
}

// The head line: the batch number and the stamp.
#[tactic(auto, using(std::proofs::Common::append_assoc))]
fn put_head(text: &mut Vec<u8>, lot: Lot, stamp: Stamp) -> Result<(), AllocError>
    ensures { OnOk result (text.new.items ≡ text.old.items ++ head_line lot stamp) }
{
    let number: [u8; 7] = digits_write(u64::from(lot.number()));
    text.extend_from_slice(b"SETTLE|1|")?;
    text.extend_from_slice(&number)?;
    text.extend_from_slice(b"|")?;
    text.extend_from_slice(&stamp.digits())?;
    text.extend_from_slice(b"\n")
}

/// A provider's line.
#[tactic(auto, using(std::proofs::Common::append_assoc))]
pub(crate) fn put_line(
    alloc: Global,
    text: &mut Vec<u8>,
    field: &Field,
    tally: &Tally,
) -> Result<(), AllocError>
    ensures { OnOk result (text.new.items ≡ text.old.items ++ (codes "P|" ++ (named field.now ++ counts_text tally.now))) }
{
    text.extend_from_slice(b"P|")?;
    put_provider(text, field)?;
    put_counts(alloc, text, tally)
}

/// The total line.
#[tactic(auto, using(std::proofs::Common::append_assoc))]
pub(crate) fn put_total(alloc: Global, text: &mut Vec<u8>, tally: &Tally) -> Result<(), AllocError>
    ensures { OnOk result (text.new.items ≡ text.old.items ++ (codes "TOTAL" ++ counts_text tally.now)) }
{
    text.extend_from_slice(b"TOTAL")?;
    put_counts(alloc, text, tally)
}

// The counts and the net, and the line's end.
fn put_counts(alloc: Global, text: &mut Vec<u8>, tally: &Tally) -> Result<(), AllocError>
    ensures { OnOk result (text.new.items ≡ text.old.items ++ counts_text tally.now) }
{
    let counts = counts(alloc, tally)?;
    text.extend_from_slice(counts.as_str().as_bytes())
}

fn counts(alloc: Global, tally: &Tally) -> Result<String, AllocError>
    ensures { IfOk result (λ s. string_bytes s ≡ counts_text tally.now) }
{
    let Tally {
        paid,
        duplicate,
        approved,
        rejected,
        paid_out,
        taken_back,
    } = *tally;
    if taken_back <= paid_out {
        let net = paid_out - taken_back;
        format!(in alloc; "|{paid}|{duplicate}|{approved}|{rejected}|{net}\n")
    } else {
        let owed = taken_back - paid_out;
        format!(in alloc; "|{paid}|{duplicate}|{approved}|{rejected}|-{owed}\n")
    }
}
