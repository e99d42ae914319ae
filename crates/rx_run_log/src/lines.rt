ghost use Rattle.std.specs.Prelude.{◌≡◌, ◌++◌, IfOk, OnOk};
ghost use Rattle.rx_print.specs.Decimal.{grouped};
ghost use Rattle.rx_run_log.specs.Lines.{totals_part, totals_text, counted_part, counted_text, done_text, ending, named};
ghost use Rattle.rx_run_log.specs.Lines.{progress_text, shards_text, size_part, step_text, time_part};

use crate::numbers::{put_net, put_size, put_time};
use crate::report::{Counted, RunReport, Shards, StepReport};
use crate::settlement::Totals;
use rx_print::put_grouped;
use std::alloc::{AllocError, Global};

/// The line of a step: its name, what was counted, its bytes and its time.
///
/// # Errors
///
/// Out of memory.
#[tactic(auto, using(std::proofs::Common::append_assoc))]
pub fn step_line(alloc: Global, report: &StepReport) -> Result<Vec<u8>, AllocError>
    ensures { IfOk result (λ line. line.items ≡ step_text report.now) }
{
    let mut line = Vec::new(alloc);
    line.extend_from_slice(report.step.label().as_bytes())?;
    put_counted(&mut line, report.counted)?;
    put_size_part(&mut line, b"  ", report.bytes)?;
    put_time_part(&mut line, report.micros)?;
    line.push(b'\n')?;
    Ok(line)
}

/// The line of a run whose records are dealt out in shards.
///
/// # Errors
///
/// Out of memory.
#[tactic(auto, using(std::proofs::Common::append_assoc))]
pub fn shards_line(alloc: Global, shards: &Shards) -> Result<Vec<u8>, AllocError>
    ensures { IfOk result (λ line. line.items ≡ shards_text shards.now) }
{
    let mut line = Vec::new(alloc);
    line.extend_from_slice(b"shards       ")?;
    put_named(&mut line, shards.count, ", the largest has ")?;
    put_named(&mut line, shards.largest, " of ")?;
    put_numbered(&mut line, shards.transactions, " transaction")?;
    line.push(b'\n')?;
    Ok(line)
}

/// The line of a run that goes on: how many of its records are adjudicated.
///
/// # Errors
///
/// Out of memory.
#[tactic(auto, using(std::proofs::Common::append_assoc))]
pub fn progress_line(alloc: Global, adjudicated: u64, records: u64) -> Result<Vec<u8>, AllocError>
    ensures { IfOk result (λ line. line.items ≡ progress_text adjudicated records) }
{
    let mut line = Vec::new(alloc);
    line.extend_from_slice(b"adjudicated  ")?;
    put_grouped(&mut line, adjudicated)?;
    line.extend_from_slice(b" of ")?;
    put_grouped(&mut line, records)?;
    line.extend_from_slice(b" records\n")?;
    Ok(line)
}

/// The line of a run that is done: its totals, the most memory that it had, and its time.
///
/// # Errors
///
/// Out of memory.
#[tactic(auto, using(std::proofs::Common::append_assoc))]
pub fn done_line(alloc: Global, run: &RunReport) -> Result<Vec<u8>, AllocError>
    ensures { IfOk result (λ line. line.items ≡ done_text run.now) }
{
    let mut line = Vec::new(alloc);
    line.extend_from_slice(b"done       ")?;
    put_totals_part(&mut line, run.totals)?;
    put_size_part(&mut line, b"  peak ", run.peak)?;
    put_time_part(&mut line, run.micros)?;
    line.push(b'\n')?;
    Ok(line)
}

/// What a run came to, as `12 paid, 1 duplicate, 2 approved, 8 rejected, net 4,405.30`, the net in dollars and cents.
///
/// # Errors
///
/// Out of memory.
pub fn totals_words(alloc: Global, totals: &Totals) -> Result<Vec<u8>, AllocError>
    ensures { IfOk result (λ words. words.items ≡ totals_text totals.now) }
{
    let mut words = Vec::new(alloc);
    put_totals(&mut words, totals)?;
    Ok(words)
}

#[tactic(auto, using(std::proofs::Common::append_assoc))]
fn put_counted(line: &mut Vec<u8>, counted: Option<Counted>) -> Result<(), AllocError>
    ensures { OnOk result (line.new.items ≡ line.old.items ++ counted_part counted) }
{
    let Some(counted) = counted else {
        return Ok(());
    };
    line.extend_from_slice(b"  ")?;
    put_count(line, counted)
}

fn put_count(line: &mut Vec<u8>, counted: Counted) -> Result<(), AllocError>
    ensures { OnOk result (line.new.items ≡ line.old.items ++ counted_text counted) }
{
    match counted {
        Counted::Lines(count) => put_numbered(line, count, " line"),
        Counted::Records(count) => put_numbered(line, count, " record"),
    }
}

// A count, and what is counted, with the ending of the plural.
#[tactic(auto, using(std::proofs::Common::append_assoc))]
fn put_numbered(line: &mut Vec<u8>, count: u64, name: &str) -> Result<(), AllocError>
    ensures { OnOk result (line.new.items ≡ line.old.items ++ (grouped count ++ (name.now ++ ending count))) }
{
    put_grouped(line, count)?;
    line.extend_from_slice(name.as_bytes())?;
    put_ending(line, count)
}

// The ending of the plural.
fn put_ending(line: &mut Vec<u8>, count: u64) -> Result<(), AllocError>
    ensures { OnOk result (line.new.items ≡ line.old.items ++ ending count) }
{
    if count == 1 {
        return Ok(());
    }
    line.push(b's')?;
    Ok(())
}

#[tactic(auto, using(std::proofs::Common::append_assoc))]
fn put_size_part(line: &mut Vec<u8>, front: &[u8], bytes: Option<u64>) -> Result<(), AllocError>
    ensures { OnOk result (line.new.items ≡ line.old.items ++ size_part front.now bytes) }
{
    let Some(bytes) = bytes else {
        return Ok(());
    };
    line.extend_from_slice(front)?;
    put_size(line, bytes)
}

#[tactic(auto, using(std::proofs::Common::append_assoc))]
fn put_time_part(line: &mut Vec<u8>, micros: Option<u64>) -> Result<(), AllocError>
    ensures { OnOk result (line.new.items ≡ line.old.items ++ time_part micros) }
{
    let Some(micros) = micros else {
        return Ok(());
    };
    line.extend_from_slice(b"  ")?;
    put_time(line, micros)
}

#[tactic(auto, using(std::proofs::Common::append_assoc))]
fn put_totals_part(line: &mut Vec<u8>, totals: Option<Totals>) -> Result<(), AllocError>
    ensures { OnOk result (line.new.items ≡ line.old.items ++ totals_part totals) }
{
    let Some(totals) = totals else {
        return Ok(());
    };
    line.extend_from_slice(b"  ")?;
    put_totals(line, &totals)
}

#[tactic(auto, using(std::proofs::Common::append_assoc))]
fn put_totals(line: &mut Vec<u8>, totals: &Totals) -> Result<(), AllocError>
    ensures { OnOk result (line.new.items ≡ line.old.items ++ totals_text totals.now) }
{
    put_named(line, totals.paid, " paid, ")?;
    put_named(line, totals.duplicate, " duplicate, ")?;
    put_named(line, totals.approved, " approved, ")?;
    put_named(line, totals.rejected, " rejected, net ")?;
    put_net(line, totals.net)
}

// A count, and what is counted.
#[tactic(auto, using(std::proofs::Common::append_assoc), unfolding(crate::specs::Lines::named))]
fn put_named(line: &mut Vec<u8>, count: u64, name: &str) -> Result<(), AllocError>
    ensures { OnOk result (line.new.items ≡ line.old.items ++ named count name.now) }
{
    put_grouped(line, count)?;
    line.extend_from_slice(name.as_bytes())
}
