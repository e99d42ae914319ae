ghost use Rattle.std.specs.Prelude.{◌≡◌, IfOk, Some, codes, map, string_bytes};
ghost use Rattle.serde_json.specs.Data.{array};
ghost use Rattle.serde_json.specs.View.{items_of, view};
ghost use Rattle.serde_json.specs.Written.{IsInOrder};
ghost use Rattle.rx_run_log.specs.Log.{code_data, codes_data, counts_data, file_data, inputs_data, log_data, lot_data};
ghost use Rattle.rx_run_log.specs.Log.{machine_data, outputs_data, refused_data, run_data, said_data};
ghost use Rattle.rx_run_log.specs.Log.{shards_data, steps_data, time_data, totals_data};
ghost use Rattle.rx_run_log.specs.Members.{Has, Puts};

use crate::header::Lot;
use crate::log::{CodeCount, FileLog, RunLog};
use crate::members::Members;
use crate::report::Shards;
use crate::settlement::Totals;
use crate::step::{Step, StepTimes};
use rx_io::{Inputs, Outputs};
use serde_json::{Value, json};
use std::alloc::{AllocError, Global};

/// The line of a log, without a line feed: JSON with the members of the log's value, each once and in order, and its
/// integers in decimal.
///
/// # Errors
///
/// Out of memory.
pub fn log_line(alloc: Global, log: &RunLog<'_>) -> Result<String, AllocError>
    ensures { IfOk result (λ line. IsInOrder (string_bytes line) (log_data log.now)) }
{
    let value = line(alloc, log).into_value()?;
    value.to_string(alloc)
}

// The members are put from the last to the first, here and below: each is compared only with the one that it precedes.
fn line(alloc: Global, log: &RunLog<'_>) -> Members
    ensures { Has result (log_data log.now) }
{
    let mut members = Members::new(alloc);
    members.text("version", log.version);
    put_totals(alloc, &mut members, log.totals);
    members.put("status", Value::from(log.status));
    put_shards(alloc, &mut members, log.shards);
    members.object("run", run(alloc, log));
    put_refused(alloc, &mut members, log.refused);
    members.number("peak_kilobytes", log.peak);
    members.object("outputs", outputs(alloc, &log.outputs));
    members.object("microseconds", steps(alloc, &log.steps));
    put_lot(alloc, &mut members, log.lot);
    members.object("inputs", inputs(alloc, &log.inputs));
    members.number("file", log.file);
    members
}

fn put_totals(alloc: Global, members: &mut Members, totals: Option<Totals>)
    ensures { Puts members.old members.new (codes "totals") (totals_data totals) }
{
    match totals {
        Some(totals) => members.object("totals", totals_known(alloc, totals)),
        None => members.null("totals"),
    }
}

fn totals_known(alloc: Global, totals: Totals) -> Members
    ensures { Has result (totals_data (Some totals)) }
{
    let mut members = Members::new(alloc);
    members.put("rejected", Value::from(totals.rejected));
    members.put("paid", Value::from(totals.paid));
    members.put("net", Value::from(totals.net));
    members.put("duplicate", Value::from(totals.duplicate));
    members.put("approved", Value::from(totals.approved));
    members
}

fn put_shards(alloc: Global, members: &mut Members, shards: Option<Shards>)
    ensures { Puts members.old members.new (codes "shards") (shards_data shards) }
{
    let Some(shards) = shards else {
        return members.null("shards");
    };
    let mut own = Members::new(alloc);
    own.put("transactions", Value::from(shards.transactions));
    own.put("largest", Value::from(shards.largest));
    own.put("count", Value::from(shards.count));
    members.object("shards", own);
}

fn run(alloc: Global, log: &RunLog<'_>) -> Members
    ensures { Has result (run_data log.now) }
{
    let mut members = Members::new(alloc);
    members.put("workers", Value::from(log.workers));
    members.object("words", said(alloc, log));
    members.object("time", time(alloc, log));
    members.text("stamp", log.stamp);
    members.flag("safe", log.safe);
    members.known_text("plan", log.plan);
    members.flag("plain", log.plain);
    members.object("machine", machine(alloc, log));
    members.flag("desk", log.desk);
    members.object("counts", counts(alloc, log));
    members
}

fn said(alloc: Global, log: &RunLog<'_>) -> Members
    ensures { Has result (said_data log.now) }
{
    let mut members = Members::new(alloc);
    members.known_text("warning", log.warning);
    members.known_text("fault", log.fault);
    members
}

fn time(alloc: Global, log: &RunLog<'_>) -> Members
    ensures { Has result (time_data log.now) }
{
    let mut members = Members::new(alloc);
    members.known_text("start", log.start);
    members.number("duration", log.duration);
    members
}

fn machine(alloc: Global, log: &RunLog<'_>) -> Members
    ensures { Has result (machine_data log.now) }
{
    let mut members = Members::new(alloc);
    members.put("process", Value::from(log.process));
    members.known_text("host", log.host);
    members
}

fn counts(alloc: Global, log: &RunLog<'_>) -> Members
    ensures { Has result (counts_data log.now) }
{
    let mut members = Members::new(alloc);
    members.number("records", log.records);
    members.number("end_books_lines", log.end_books_lines);
    members.put_made("codes", all_codes(alloc, log.codes));
    members
}

fn all_codes(alloc: Global, codes: Option<&[CodeCount]>) -> Result<Value, AllocError>
    ensures { IfOk result (λ v. view v ≡ codes_data codes.entry) }
{
    match codes {
        Some(codes) => list(alloc, codes),
        None => Ok(Value::Null),
    }
}

fn list(alloc: Global, codes: &[CodeCount]) -> Result<Value, AllocError>
    ensures { IfOk result (λ v. view v ≡ array (items_of (map code_data codes.now))) }
{
    let mut list = Vec::new(alloc);
    for code in codes {
        list.push(counted(alloc, code)?)?;
    }
    Ok(Value::from(list))
}

fn counted(alloc: Global, code: &CodeCount) -> Result<Value, AllocError>
    ensures { IfOk result (λ v. view v ≡ code_data code.now) }
{
    let mut members = Members::new(alloc);
    members.put("count", Value::from(code.count));
    members.text("code", code.code.as_str());
    members.into_value()
}

fn put_refused(alloc: Global, members: &mut Members, refused: Option<[u64; 3]>)
    ensures { Puts members.old members.new (codes "refused") (refused_data refused) }
{
    members.put_made("refused", refused_numbers(alloc, refused));
}

fn refused_numbers(alloc: Global, refused: Option<[u64; 3]>) -> Result<Value, AllocError>
    ensures { IfOk result (λ v. view v ≡ refused_data refused) }
{
    match refused {
        Some(numbers) => json!(in alloc; [numbers[0], numbers[1], numbers[2]]),
        None => Ok(Value::Null),
    }
}

fn outputs(alloc: Global, files: &Outputs<FileLog<'_>>) -> Members
    ensures { Has result (outputs_data files.now) }
{
    let mut members = Members::new(alloc);
    members.object("settlement", file(alloc, &files.settlement));
    members.object("response", file(alloc, &files.response));
    members.object("books_out", file(alloc, &files.books));
    members
}

fn inputs(alloc: Global, files: &Inputs<FileLog<'_>>) -> Members
    ensures { Has result (inputs_data files.now) }
{
    let mut members = Members::new(alloc);
    members.object("sheet", file(alloc, &files.sheet));
    members.object("books", file(alloc, &files.books));
    members.object("batch", file(alloc, &files.batch));
    members
}

fn file(alloc: Global, file: &FileLog<'_>) -> Members
    ensures { Has result (file_data file.now) }
{
    let mut members = Members::new(alloc);
    members.known_text("sha256", file.sha256);
    members.text("path", file.path);
    members.number("bytes", file.bytes);
    members
}

fn steps(alloc: Global, times: &StepTimes) -> Members
    ensures { Has result (steps_data times.now) }
{
    let mut members = Members::new(alloc);
    members.number("sheet", times.of(Step::Sheet));
    members.number("settlement", times.of(Step::Settlement));
    members.number("response", times.of(Step::Response));
    members.number("end", times.of(Step::Disk));
    members.number("books_out", times.of(Step::EndBooks));
    members.number("books", times.of(Step::Books));
    members.number("batch", times.of(Step::Batch));
    members.number("adjudicate", times.of(Step::Adjudicate));
    members
}

fn put_lot(alloc: Global, members: &mut Members, lot: Option<Lot<'_>>)
    ensures { Puts members.old members.new (codes "lot") (lot_data lot.entry) }
{
    match lot {
        Some(lot) => members.object("lot", lot_known(alloc, &lot)),
        None => members.null("lot"),
    }
}

fn lot_known(alloc: Global, lot: &Lot<'_>) -> Members
    ensures { Has result (lot_data (Some lot.now)) }
{
    let mut members = Members::new(alloc);
    members.text("number", lot.number);
    members.text("created", lot.created);
    members
}
