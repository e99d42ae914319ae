ghost use Rattle.std.specs.Prelude.{◌≡◌, ◌↔◌, Err, IfErr, IfOk, true};
ghost use Rattle.rx_switch.specs.Job.{given_by, texts_in};
ghost use Rattle.rx_switch.specs.Output.{IsOutput, IsRefused, RefusesOne, stamp_for};
ghost use Rattle.rx_commands.specs.Verdict.{IsVerdict, outcome_by};
ghost use Rattle.rx_commands.specs.Verified.{AreDifferences, IsVerified, are_none, texts_in_files};

mod lines;

use crate::difference::first_difference;
use crate::printed::{Outcome, Printed};
use lines::verdict_text;
use rx_io::Outputs;
use rx_switch::{Job, Output, SwitchFault, run};
use rx_wave::Gate;
use std::alloc::Global;
use std::sync::Wait;
use std::thread::Threads;

/// What `verify` prints: it does a run again and compares the files of an earlier one with it.
///
/// The files are found the same exactly where they are, byte for byte, what adjudicating the records one after another in
/// file order gives; else the text has for each that isn't the first line or record that differs, and what stands there
/// (docs/CLI.md, "verify").
///
/// # Errors
///
/// As of a run: the first of Workers, Stamp, Sheet, Books and Batch; Memory; Thread, but never of a plain job.
pub fn verify<R: Threads + Wait + Sync, G: Gate + Sync>(
    rt: &R,
    alloc: Global,
    gate: &G,
    job: &Job<'_>,
    files: &Outputs<&[u8]>,
) -> Result<Printed, SwitchFault>
    ensures same { IfOk result (λ printed. (printed.outcome ≡ Outcome.Done)
        ↔ IsOutput (given_by job.now) (texts_in_files files.now)) }
    ensures places { IfOk result (IsVerdict (given_by job.now) (texts_in_files files.now)) }
    ensures refused { IfErr result (λ fault. IsRefused (given_by job.now) fault) }
    ensures words { (fault : SwitchFault) → stamp_for job.now.workers job.now.stamp.now ≡ Err fault → result ≡ Err fault }
    ensures thread { result ≡ Err SwitchFault.Thread → RefusesOne job.now.plain (G.starts gate.now) job.now.workers }
{
    let verified = run_again(rt, alloc, gate, files, job)?;
    let outcome = outcome_by(&verified.differences);
    let text = verdict_text(alloc, &verified, files);
    drop(verified);
    Ok(Printed {
        text: text?,
        outcome,
    })
}

fn outcome_by(differences: &Outputs<Option<usize>>) -> Outcome
    ensures { result ≡ outcome_by differences.now }
{
    if are_none(differences) {
        Outcome::Done
    } else {
        Outcome::Differs
    }
}

// A run done again. For each file the first place where it differs from the run's text, in bytes from its start; None where
// it is the same.
#[derive(Drop)]
pub(crate) struct Verified {
    output: Output,
    differences: Outputs<Option<usize>>,
}

// Does the run again and compares the files with it.
fn run_again<R: Threads + Wait + Sync, G: Gate + Sync>(
    rt: &R,
    alloc: Global,
    gate: &G,
    files: &Outputs<&[u8]>,
    job: &Job<'_>,
) -> Result<Verified, SwitchFault>
    ensures same { IfOk result (λ v. (are_none v.differences ≡ true)
        ↔ IsOutput (given_by job.now) (texts_in_files files.now)) }
    ensures places { IfOk result (λ v.
        IsVerified (given_by job.now) (texts_in v.output) (texts_in_files files.now) v.differences) }
    ensures refused { IfErr result (λ fault. IsRefused (given_by job.now) fault) }
    ensures words { (fault : SwitchFault) → stamp_for job.now.workers job.now.stamp.now ≡ Err fault → result ≡ Err fault }
    ensures thread { result ≡ Err SwitchFault.Thread → RefusesOne job.now.plain (G.starts gate.now) job.now.workers }
{
    let output = run(rt, alloc, gate, job)?;
    let differences = differences(&output, files);
    Ok(Verified {
        output,
        differences,
    })
}

fn differences(output: &Output, files: &Outputs<&[u8]>) -> Outputs<Option<usize>>
    ensures { AreDifferences (texts_in output.now) (texts_in_files files.now) result }
{
    Outputs {
        response: first_difference(&output.response, files.response),
        books: first_difference(&output.books, files.books),
        settlement: first_difference(&output.settlement, files.settlement),
    }
}

// Whether no file differs.
fn are_none(differences: &Outputs<Option<usize>>) -> bool
    ensures { result ≡ are_none differences.now }
{
    differences.response.is_none()
        && differences.books.is_none()
        && differences.settlement.is_none()
}
